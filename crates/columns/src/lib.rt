// Leaves stored in lent columns: a uniform start, and a stretch of leaves of one root and level.
// The bits of a child number and a level are ordinary numbers here, as in the laws.
#![tactic(auto)]

ghost use Rattle.leaves.specs.Calls.{Started};
ghost use Rattle.columns.specs.Lent.{held, SameLoans};
ghost use Rattle.columns.specs.Laying.{Laid};

use leaves::Leaf;
use paper::Refusal;

mod lent;
mod start;
mod stretch;

pub use lent::LentColumns;

// The leaves of some roots, all at one level, in order. Refused: 17, 11, 1, 15, 14.
pub fn uniform(k: u16, level: u8, lent: &mut LentColumns) -> Result<u64, Refusal>
    ensures loans { SameLoans lent.old lent.new }
    ensures started { Started k level result (held lent.old) (held lent.new) }
{
    if leaves::out_of_range(k) {
        return Err(Refusal::OutOfRange(0));
    }
    if !lent.is_even() {
        return Err(Refusal::UnfitColumns(0));
    }
    if tree::HIGHEST < level {
        return Err(Refusal::LevelTooHigh(0));
    }
    // Whether k times 8^level passes the limit, without the product.
    if (leaves::LIMIT as u64) >> (leaves::BITS * level) < k as u64 {
        return Err(Refusal::TooManyLeaves(0));
    }
    let count = (k as u64) << (leaves::BITS * level);
    if (lent.roots.len() as u64) < count {
        return Err(Refusal::NoRoom(count));
    }
    start::fill(k, leaves::BITS * level, level, lent);
    Ok(count)
}

// So many leaves of one root and level, in order from a leaf on, stored from entry `at` of each column on: all of them, or none where they
// don't fit. The answer is how many it stored.
pub fn lay(at: usize, count: usize, first: Leaf, lent: &mut LentColumns) -> usize
    ensures loans { SameLoans lent.old lent.new }
    ensures laid { Laid at count first.root first.level first.position result (held lent.old) (held lent.new) }
{
    if !stretch::fits(at, count, first.position, lent) {
        return 0;
    }
    stretch::write(at, count, first, lent);
    count
}
