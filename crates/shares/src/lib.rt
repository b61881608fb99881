// Shares of a weighted leaf list: boundaries that divide the leaves among machines by their weight. The contract is the call of
// `specs/Calls.antt` at eight children and highest level 21.
#![tactic(auto)]

ghost use Rattle.shares.specs.Calls.{Shared};

use leaves::LeafList;
use paper::Refusal;

mod division;

// The p + 1 boundaries of p shares of a list with its weights. Refused: 17, 11, then 1, 5, 12 at each leaf, 16, 14.
pub fn shares(
    k: u16,
    p: u16,
    list: &LeafList,
    weights: &[u16],
    boundaries: &mut [u32],
) -> Result<(), Refusal>
    ensures { Shared k p result list.now weights.now boundaries.old boundaries.new }
{
    if leaves::out_of_range(k) || leaves::out_of_range(p) {
        return Err(Refusal::OutOfRange(0));
    }
    if list.len() != weights.len() {
        return Err(Refusal::UnfitColumns(0));
    }
    leaves::check_list(k, list)?;
    division::check_weights(weights)?;
    if boundaries.len() < p as usize + 1 {
        return Err(Refusal::NoRoom(p as u64 + 1));
    }
    division::divide(p, weights, boundaries);
    Ok(())
}
