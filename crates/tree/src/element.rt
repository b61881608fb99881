// The calls on elements, once for every shape: each runs its tests in the order of the paper, then the shape's own work, which asks for just
// what those tests have shown. The tenth, `family`, is in `columns.rt`.
ghost use Rattle.std.specs.Prelude.{◌≡◌, ◌^◌, ◌<◌, ◌≤◌, ℕ};
ghost use Rattle.paper.specs.Outcome.{fault_at};
ghost use Rattle.paper.specs.Refusals.{outcome_of, ordering_of};
ghost use Rattle.tree.specs.Anchors.{HIGHEST};
ghost use Rattle.tree.specs.Shape.{Shape};
ghost use Rattle.tree.specs.Words;
ghost use Rattle.tree.specs.Calls;
ghost use Rattle.tree.specs.Laws.{Lawful, Sound};
ghost use Rattle.tree.specs.Stated.{States, Same};

use crate::{HIGHEST, order};
use paper::Refusal;
use std::cmp::Ordering;

// A shape: what its elements are, and the work of its calls.
pub trait Element: Copy + PartialEq {
    ghost shape: { Shape Self };

    // How many bits the number of a child has, and the paper's constants.
    const BITS: u8;

    const CHILDREN: u8;

    const FACES: u8;

    const CORNERS: u8;

    ghost BITS: { ℕ };

    ghost CHILDREN: { ℕ };

    ghost FACES: { ℕ };

    ghost CORNERS: { ℕ };

    fn level(self) -> u8
        ensures { result ≡ shape.level self };

    // The first check that the element fails, if any; refused at a place.
    fn check(self, place: u64) -> Result<(), Refusal>
        ensures { outcome_of result ≡ fault_at (shape.fault self) place };

    // The element at a position that the level has.
    fn placed(level: u8, position: u64) -> Self
        requires { (level ≤ HIGHEST) × (position < shape.children ^ level) }
        ensures { result ≡ Words.element_at shape level position };

    // The position of a sound element.
    fn rank(self) -> u64
        requires { Sound shape self }
        ensures { result ≡ Words.position shape self };

    // The parent of a sound element that has one.
    fn up(self) -> Self
        requires { Sound shape self × (0 < shape.level self) }
        ensures { result ≡ shape.parent self };

    // A child of a sound element that has it.
    fn down(self, number: u8) -> Self
        requires { Sound shape self × ((shape.level self < HIGHEST) × (number < shape.children)) }
        ensures { result ≡ shape.child self number };

    // The first and the last descendant of a sound element, at a level from its own on.
    fn top(self, level: u8) -> Self
        requires { Sound shape self × ((shape.level self ≤ level) × (level ≤ HIGHEST)) }
        ensures { result ≡ Words.first shape self level };

    fn bottom(self, level: u8) -> Self
        requires { Sound shape self × ((shape.level self ≤ level) × (level ≤ HIGHEST)) }
        ensures { result ≡ Words.last shape self level };

    // Across a face that a sound element has.
    fn across(self, face: u8) -> Result<Self, Refusal>
        requires { Sound shape self × (face < shape.faces) }
        ensures { outcome_of result ≡ shape.neighbour self face };

    ghost lawful: { Lawful shape };

    ghost states: { States shape BITS CHILDREN FACES CORNERS };

    ghost same: { Same shape Self.PartialEq.eq };

    // The calls. Those that answer an element hand on a refusal by `if let` and not by `?`, and `neighbour` takes its answer apart: else a line
    // that is answered over C is written in parts and then read whole, which the machine has to wait for (docs/SPEED.md).

    // The element of a level at a position. Refused: 1, 5.
    final fn at(level: u8, position: u64) -> Result<Self, Refusal>
        ensures { outcome_of result ≡ Calls.at shape level position }
    {
        if HIGHEST < level {
            return Err(Refusal::LevelTooHigh(0));
        }
        if 1u64 << (Self::BITS * level) <= position {
            return Err(Refusal::NoPosition(0));
        }
        Ok(Self::placed(level, position))
    }

    // The position of an element. Refused: the checks on it.
    final fn position(self) -> Result<u64, Refusal>
        ensures { outcome_of result ≡ Calls.position shape self }
    {
        self.check(0)?;
        Ok(self.rank())
    }

    // The element that this one is a child of. Refused: the checks on it, 6.
    final fn parent(self) -> Result<Self, Refusal>
        ensures { outcome_of result ≡ Calls.parent shape self }
    {
        if let Err(refusal) = self.check(0) {
            return Err(refusal);
        }
        if self.level() == 0 {
            return Err(Refusal::LevelTooLow(0));
        }
        Ok(self.up())
    }

    // A child by its number. Refused: the checks on it, 7, 8.
    final fn child(self, number: u8) -> Result<Self, Refusal>
        ensures { outcome_of result ≡ Calls.child shape self number }
    {
        if let Err(refusal) = self.check(0) {
            return Err(refusal);
        }
        if HIGHEST <= self.level() {
            return Err(Refusal::TooSmall(0));
        }
        if Self::CHILDREN <= number {
            return Err(Refusal::NumberTooLarge(0));
        }
        Ok(self.down(number))
    }

    // The next element of the level. Refused: the checks on it, 9.
    final fn successor(self) -> Result<Self, Refusal>
        ensures { outcome_of result ≡ Calls.successor shape self }
    {
        if let Err(refusal) = self.check(0) {
            return Err(refusal);
        }
        let next = self.rank() + 1;
        let level = self.level();
        if next == 1u64 << (Self::BITS * level) {
            return Err(Refusal::LastOne(0));
        }
        Ok(Self::placed(level, next))
    }

    // The first descendant at a level. Refused: the checks on it, then 1, 6 for the level.
    final fn first_descendant(self, level: u8) -> Result<Self, Refusal>
        ensures { outcome_of result ≡ Calls.first shape self level }
    {
        if let Err(refusal) = self.check(0) {
            return Err(refusal);
        }
        if HIGHEST < level {
            return Err(Refusal::LevelTooHigh(0));
        }
        if level < self.level() {
            return Err(Refusal::LevelTooLow(0));
        }
        Ok(self.top(level))
    }

    // The last descendant at a level. Refused: the checks on it, then 1, 6 for the level.
    final fn last_descendant(self, level: u8) -> Result<Self, Refusal>
        ensures { outcome_of result ≡ Calls.last shape self level }
    {
        if let Err(refusal) = self.check(0) {
            return Err(refusal);
        }
        if HIGHEST < level {
            return Err(Refusal::LevelTooHigh(0));
        }
        if level < self.level() {
            return Err(Refusal::LevelTooLow(0));
        }
        Ok(self.bottom(level))
    }

    // The element across a face. Refused: the checks on it, 8, 10.
    final fn neighbour(self, face: u8) -> Result<Self, Refusal>
        ensures { outcome_of result ≡ Calls.neighbour shape self face }
    {
        if let Err(refusal) = self.check(0) {
            return Err(refusal);
        }
        if Self::FACES <= face {
            return Err(Refusal::NumberTooLarge(0));
        }
        match self.across(face) {
            Ok(e) => Ok(e),
            Err(refusal) => Err(refusal),
        }
    }

    // The order of two elements. Refused: the checks on each, at place 0 or 1.
    final fn compare(self, other: Self) -> Result<Ordering, Refusal>
        ensures { ordering_of result ≡ Calls.order shape self other }
    {
        self.check(0)?;
        other.check(1)?;
        Ok(order(start(self), self.level(), start(other), other.level()))
    }
}

// The position of a sound element's first descendant of the highest level.
fn start<E: Element>(e: E) -> u64
    requires { Sound E.shape e }
    ensures { result ≡ Words.position E.shape (Words.first E.shape e HIGHEST) }
{
    e.rank() << (E::BITS * (HIGHEST - e.level()))
}
