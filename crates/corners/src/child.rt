// A corner of a child, from its parent: the step to each child and to its corner is read once, for all positions of a level.
ghost use Rattle.std.specs.Prelude.{◌≡◌, ◌%◌, ◌<◌, ◌≤◌};
ghost use Rattle.tree.specs.Anchors.{HIGHEST};
ghost use Rattle.tree.specs.Anchors as anchors;
ghost use Rattle.tree.specs.Words.{element_at};
ghost use Rattle.triangle.specs.Elements as triangles;
ghost use Rattle.prism.specs.Elements.{CORNERS, prism};
ghost use Rattle.prism.specs.Points as prisms;
ghost use Rattle.corners.specs.Steps.{steps_to, digit_of};

use crate::local::Local;
use crate::work;
use prism::Prism;
use tree::element::Element;
use triangle::Triangle;

// What all positions share: the level, its side, the corner number, and the steps to that corner of each child.
#[derive(Clone, Copy)]
pub(crate) struct Section {
    level: u8,
    side: u32,
    corner: u8,
    steps: u32,
    ghost shallow: { level ≤ HIGHEST },
    ghost numbered: { corner < CORNERS },
    ghost its_side: { side ≡ anchors.side HIGHEST level },
    ghost its_steps: { steps ≡ steps_to (corner % triangles.CORNERS) },
}

// How far a corner of each of a triangle's four children lies from the parent's anchor, for a parent of either type: a hexadecimal digit for each,
// those of a parent of type 0 lowest, and of these child 0. Both tables are read here, for the whole section, and not at each point.
fn steps(corner: u8) -> u32
    ensures { result ≡ steps_to (corner % triangles.CORNERS) }
{
    let mut word = 0;
    for i in 0..8u8 {
        word += step(i / 4, i % 4, corner) << (4 * i);
    }
    word
}

// Of the child with a number, of a parent of a type: its step from the parent's anchor and the corner's from its own, both in sides of the child.
// Of four bits the upper two are x, the lower two y.
fn step(kind: u8, number: u8, corner: u8) -> u32
    requires { (kind < 2) × (number < 4) }
    ensures { result ≡ digit_of (corner % triangles.CORNERS) kind number }
{
    let row = rows::child_row(kind, number);
    let s = work::sides(row.kind, corner % Triangle::CORNERS);
    let x = row.x + s / 2;
    let y = row.y + s % 2;
    u32::from(4 * x + y)
}

impl Section {
    ghost use Rattle.corners.specs.Inner.{corner_of, AtPosition, AtChild};

    pub(crate) fn new(level: u8, corner: u8) -> Section
        requires { (level ≤ HIGHEST) × (corner < CORNERS) }
        ensures level { result.level ≡ level }
        ensures corner { result.corner ≡ corner }
    {
        Section {
            level,
            side: tree::side(level),
            corner,
            steps: steps(corner),
        }
    }

    // A corner of the element at a position, from its parent.
    pub(crate) fn local_at(self, position: u64, parent: Prism) -> Local
        requires { AtPosition self position parent }
        ensures { corner_of result ≡ prisms.corner HIGHEST (element_at prism self.level position) self.corner }
    {
        if self.level == 0 {
            return work::local_of(parent, self.corner);
        }
        self.local_below(parent, (position % 8) as u8)
    }

    // A corner of a child: its step from the parent's anchor and the corner's from its own, both in sides of the child.
    fn local_below(self, parent: Prism, number: u8) -> Local
        requires { AtChild self parent number }
        ensures { corner_of result ≡ prisms.corner HIGHEST (prism.child parent number) self.corner }
    {
        let h = self.side;
        let digit = (self.steps >> (16 * parent.kind + 4 * (number % 4))) % 16;
        let x = parent.x + digit / 4 * h;
        let y = parent.y + digit % 4 * h;
        let z = parent.z + u32::from(number / 4 + self.corner / Triangle::CORNERS) * h;
        Local { x, y, z }
    }
}
