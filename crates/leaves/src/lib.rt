// Leaf lists over lent columns: root, level, position. The contract of the list check is the call of `specs/Calls.antt` at eight children and
// highest level 21; the engine behind it takes the bits of a child number and the highest level as ordinary numbers,
// as its laws and edits do.
#![tactic(auto)]

ghost use Rattle.std.specs.Prelude.{◌≡◌, ◌&&◌, ◌^◌, ◌≤◌, ◌<◌, eqb, MatchResult};
ghost use Rattle.paper.specs.Outcome.{passed};
ghost use Rattle.paper.specs.Refusals.{outcome_of};
ghost use Rattle.tree.specs.Anchors.{HIGHEST};
ghost use Rattle.leaves.specs.Leaves.{CHILDREN, leaves, room, spot_at};
ghost use Rattle.leaves.specs.Calls.{out_of_range, walked, check_list};
ghost use Rattle.leaves.specs.Inner.{Walks, NextRoot, Refuses};

use paper::Refusal;

mod list;
mod power;
mod step;

pub use list::{Leaf, LeafList};
use step::Cursor;

// The bits of a prism's child number: a level has 2^(3 level) of them.
pub const BITS: u8 = 3;

// The most leaves that a list has.
pub const LIMIT: usize = 1048576;

// The most roots or shares.
pub const MOST: u16 = 4096;

// Whether a number of roots or of shares is outside 1 to 4,096.
pub fn out_of_range(k: u16) -> bool
    ensures { result ≡ out_of_range k }
{
    k == 0 || MOST < k
}

// Whether the three columns of a list are equally long, by their lengths: public, and so it stays beside `is_even`.
pub fn equal_lengths(roots: usize, levels: usize, positions: usize) -> bool
    ensures { result ≡ (eqb roots levels && eqb roots positions) }
{
    roots == levels && roots == positions
}

// Whether the columns are a valid list of the roots. Refused: 17, 11, then 1, 5, 12 at each leaf.
pub fn check_list(k: u16, list: &LeafList) -> Result<(), Refusal>
    ensures { outcome_of result ≡ check_list CHILDREN HIGHEST k list.now }
{
    if out_of_range(k) {
        return Err(Refusal::OutOfRange(0));
    }
    if !list.is_even() || list.len() == 0 || LIMIT < list.len() {
        return Err(Refusal::UnfitColumns(0));
    }
    walk(BITS, tree::HIGHEST, k, list)
}

// The roots in turn, each filled by leaves that start where the one before them ended, and no leaf after the last root.
fn walk(bits: u8, highest: u8, k: u16, list: &LeafList) -> Result<(), Refusal>
    requires { Walks bits highest list.now }
    ensures { outcome_of result ≡ walked (2 ^ bits) highest k 0 (spot_at 0 0) (leaves list.now) passed }
{
    let mut from = 0;
    for root in 0..k {
        from = fill_root(bits, highest, k, root, from, list)?;
    }
    // A leaf after the last root is in none of them, and is refused by the first of 1, 5, 12 that it has.
    if from < list.len() {
        let at = Cursor { root: k, cell: 0 };
        step::over(bits, highest, k, at, list.leaf(from), from as u64)?;
    }
    Ok(())
}

// The leaves of one root, the first of them at an entry of the list. The answer is the entry after the last.
fn fill_root(
    bits: u8,
    highest: u8,
    k: u16,
    root: u16,
    from: usize,
    list: &LeafList,
) -> Result<usize, Refusal>
    requires walks { Walks bits highest list.now }
    requires root_bound { root < k }
    requires from_bound { from ≤ room list.now }
    ensures { MatchResult result
        (λ next. NextRoot (2 ^ bits) highest k root from next list.now)
        (λ refusal. Refuses (2 ^ bits) highest k root from refusal list.now) }
{
    let mut cell = 0;
    for i in from..list.len() {
        let at = Cursor { root, cell };
        cell += step::over(bits, highest, k, at, list.leaf(i), i as u64)?;
        if cell == 1u64 << (bits * highest) {
            return Ok(i + 1);
        }
    }
    Err(Refusal::NotCovered(list.len() as u64))
}
