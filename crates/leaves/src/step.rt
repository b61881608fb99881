// One leaf of a list: whether it starts where it should, and how far it goes.
ghost use Rattle.std.specs.Prelude.{◌≡◌, not, ◌*◌, ◌^◌, ◌≤◌, ◌<◌, eqb};
ghost use Rattle.paper.specs.Outcome.{accepted, refuse_when_at};
ghost use Rattle.paper.specs.Refusals.{outcome_of};
ghost use Rattle.leaves.specs.Leaves.{span};
ghost use Rattle.leaves.specs.Calls.{leaf_fault};
ghost use Rattle.leaves.specs.Lists.{leaf_of};
ghost use Rattle.leaves.specs.Inner.{spot_of};

use crate::{Leaf, power};
use paper::Refusal;

// Where a list has come to: a root, and a smallest cell of it. The one of `sounding` has a wider root, which may run past the last.
#[derive(Clone, Copy)]
pub(crate) struct Cursor {
    pub(crate) root: u16,
    pub(crate) cell: u64,
}

// How many smallest cells a leaf holds that starts where the list has come to. Refused at the leaf's place: 1, 5, 12.
#[inline(always)]
pub(crate) fn over(
    bits: u8,
    highest: u8,
    k: u16,
    at: Cursor,
    leaf: Leaf,
    place: u64,
) -> Result<u64, Refusal>
    requires { bits * highest ≤ 63 }
    ensures { outcome_of result
        ≡ refuse_when_at (not (eqb (leaf_fault (2 ^ bits) highest k (spot_of at) (leaf_of leaf)) 0))
        (leaf_fault (2 ^ bits) highest k (spot_of at) (leaf_of leaf)) place
        (accepted (span (2 ^ bits) highest leaf.level)) }
{
    if highest < leaf.level {
        return Err(Refusal::LevelTooHigh(place));
    }
    if power::of_children(bits, leaf.level) <= leaf.position {
        return Err(Refusal::NoPosition(place));
    }
    if k <= leaf.root || leaf.root != at.root {
        return Err(Refusal::NotCovered(place));
    }
    let cells = power::of_children(bits, highest - leaf.level);
    if leaf.position * cells != at.cell {
        return Err(Refusal::NotCovered(place));
    }
    Ok(cells)
}
