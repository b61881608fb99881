// Adaption: one mark a leaf, one pass, into a second set of lent columns. The contract is the call of `specs/Calls.antt` at eight children and
// highest level 21; the engine behind it takes the bits of a child number as an ordinary number, and of the level knows nothing: `marks`
// alone is told the highest.
#![tactic(auto)]

ghost use Rattle.columns.specs.Lent.{held, SameLoans};
ghost use Rattle.adaption.specs.Calls.{Adapted};

use columns::LentColumns;
use leaves::LeafList;
use paper::Refusal;

mod pass;
mod run;
mod turn;

// The list after one pass over its marks: 0 keep, 1 refine, 2 merge. Refused: 17, 11, then 1, 5, 12 at each leaf, 13, 7, 15, 14.
pub fn adapt(k: u16, list: &LeafList, marks: &[u8], lent: &mut LentColumns) -> Result<u64, Refusal>
    ensures loans { SameLoans lent.old lent.new }
    ensures adapted { Adapted k result list.now marks.now (held lent.old) (held lent.new) }
{
    if leaves::out_of_range(k) {
        return Err(Refusal::OutOfRange(0));
    }
    if list.len() != marks.len() {
        return Err(Refusal::UnfitColumns(0));
    }
    if !lent.is_even() {
        return Err(Refusal::UnfitColumns(0));
    }
    leaves::check_list(k, list)?;
    marks::check(tree::HIGHEST, list.levels, marks)?;
    let size = pass::count(leaves::BITS, list, marks);
    if leaves::LIMIT < size {
        return Err(Refusal::TooManyLeaves(0));
    }
    if lent.roots.len() < size {
        return Err(Refusal::NoRoom(size as u64));
    }
    pass::write(leaves::BITS, list, marks, lent);
    Ok(size as u64)
}
