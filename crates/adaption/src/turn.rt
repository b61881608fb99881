// One turn of the pass: what happens at a leaf, how many leaves that takes and makes, and the first leaf made.
ghost use Rattle.std.specs.Prelude.{◌≡◌, ◌^◌, ◌<◌};
ghost use Rattle.leaves.specs.Leaves.{leaves, leaf_at, room};
ghost use Rattle.leaves.specs.Lists.{leaf_of, Even};
ghost use Rattle.adaption.specs.Adaption.{merging};
ghost use Rattle.adaption.specs.Inner.{Ready, Turns, turn_of, turn, gain, stride, first_of};

use leaves::{Leaf, LeafList};

#[derive(Clone, Copy)]
pub(crate) enum Turn {
    // The leaf stays.
    Keep,
    // Its children take its place.
    Refine,
    // A merging family begins with it, whose place their parent takes.
    Merge,
}

impl Turn {
    // The turn at leaf i: what its mark says, but for a 2 where no family begins.
    #[inline(always)]
    pub(crate) fn at(bits: u8, list: &LeafList, marks: &[u8], i: usize) -> Turn
        requires bits_bound { bits < 8 }
        requires i_in_bounds { i < room list.now }
        requires ready { Ready (2 ^ bits) list.now marks.now }
        ensures { turn_of result ≡ turn (2 ^ bits) (leaves list.now) marks.now i }
    {
        if marks[i] == 2 && begins(bits, list, marks, i) {
            return Turn::Merge;
        }
        if marks[i] == 1 {
            Turn::Refine
        } else {
            Turn::Keep
        }
    }

    // How many leaves it makes.
    #[inline(always)]
    pub(crate) fn made(self, bits: u8) -> usize
        requires { bits < 8 }
        ensures { result ≡ gain (2 ^ bits) (turn_of self) }
    {
        match self {
            Turn::Refine => 1usize << bits,
            Turn::Keep | Turn::Merge => 1,
        }
    }

    // How many leaves it takes.
    #[inline(always)]
    pub(crate) fn taken(self, bits: u8) -> usize
        requires { bits < 8 }
        ensures { result ≡ stride (2 ^ bits) (turn_of self) }
    {
        match self {
            Turn::Merge => 1usize << bits,
            Turn::Keep | Turn::Refine => 1,
        }
    }

    // The first leaf that it makes of a leaf.
    #[inline(always)]
    pub(crate) fn first(self, bits: u8, leaf: Leaf) -> Leaf
        requires bits_bound { bits < 8 }
        requires turns { Turns (2 ^ bits) (turn_of self) (leaf_of leaf) }
        ensures { leaf_of result ≡ first_of (2 ^ bits) (turn_of self) (leaf_of leaf) }
    {
        match self {
            Turn::Keep => leaf,
            Turn::Refine => Leaf {
                root: leaf.root,
                level: leaf.level + 1,
                position: leaf.position << bits,
            },
            Turn::Merge => Leaf {
                root: leaf.root,
                level: leaf.level - 1,
                position: leaf.position >> bits,
            },
        }
    }
}

// Whether leaf i is the first of a family that merges. The leaves of one level from a position divisible by their number on are a family,
// so no further position is compared.
fn begins(bits: u8, list: &LeafList, marks: &[u8], i: usize) -> bool
    requires bits_bound { bits < 8 }
    requires i_in_bounds { i < room list.now }
    requires ready { Ready (2 ^ bits) list.now marks.now }
    ensures { result ≡ merging (2 ^ bits) (leaves list.now) marks.now i }
{
    let first = leaf(list, i);
    if first.level == 0 {
        return false;
    }
    if first.position % (1u64 << bits) != 0 {
        return false;
    }
    if list.len() - i < 1usize << bits {
        return false;
    }
    for t in 0..1usize << bits {
        if leaf(list, i + t).level != first.level {
            return false;
        }
        if marks[i + t] != 2 {
            return false;
        }
    }
    true
}

// The leaf of an entry: `LeafList` has it for its own crate alone, since a public function asks for nothing.
#[inline(always)]
pub(crate) fn leaf(list: &LeafList, i: usize) -> Leaf
    requires even { Even list.now }
    requires i_in_bounds { i < room list.now }
    ensures { leaf_of result ≡ leaf_at list.now i }
{
    let LeafList {
        roots,
        levels,
        positions,
    } = list;
    Leaf {
        root: roots[i],
        level: levels[i],
        position: positions[i],
    }
}
