// The calls on leaf lists.
ghost use Rattle.std.specs.Prelude.{◌≡◌};
ghost use Rattle.tree.specs.Anchors.{HIGHEST};
ghost use Rattle.leaves.specs.Leaves.{CHILDREN, columns};
ghost use Rattle.leaves.specs.Calls.{check_list};
ghost use Rattle.balance.specs.Balance.{balanced};
ghost use Rattle.results.specs.Results.{pass_result, truth_result};
ghost use Rattle.interface.specs.Calls.{UniformResult, AdaptResult, SharesResult};

use columns::LentColumns;
use leaves::LeafList;
use results::NumberResult;

#[unsafe(no_mangle)]
pub extern "C" fn gw_list_check(k: u16, roots: &[u16], levels: &[u8], positions: &[u64]) -> u64
    ensures { result ≡ pass_result (check_list CHILDREN HIGHEST k
        (columns roots.now levels.now positions.now)) }
{
    let list = LeafList {
        roots,
        levels,
        positions,
    };
    results::of_pass(leaves::check_list(k, &list))
}

// A uniform start: the leaves of k roots, all at one level, at the front of the columns.
#[unsafe(no_mangle)]
pub extern "C" fn gw_list_uniform(
    k: u16,
    level: u8,
    roots: &mut [u16],
    levels: &mut [u8],
    positions: &mut [u64],
) -> NumberResult
    ensures { UniformResult k level result
        (columns roots.old levels.old positions.old)
        (columns roots.new levels.new positions.new) }
{
    let mut lent = LentColumns {
        roots,
        levels,
        positions,
    };
    columns::uniform(k, level, &mut lent).into()
}

#[unsafe(no_mangle)]
pub extern "C" fn gw_list_balanced(
    k: u16,
    roots: &[u16],
    levels: &[u8],
    positions: &[u64],
) -> NumberResult
    ensures { result ≡ truth_result (balanced CHILDREN HIGHEST k
        (columns roots.now levels.now positions.now)) }
{
    let list = LeafList {
        roots,
        levels,
        positions,
    };
    balance::balanced(k, &list).into()
}

// The list after one pass over its marks, at the front of the new columns.
#[unsafe(no_mangle)]
pub extern "C" fn gw_list_adapt(
    k: u16,
    roots: &[u16],
    levels: &[u8],
    positions: &[u64],
    marks: &[u8],
    new_roots: &mut [u16],
    new_levels: &mut [u8],
    new_positions: &mut [u64],
) -> NumberResult
    ensures { AdaptResult k result (columns roots.now levels.now positions.now) marks.now
        (columns new_roots.old new_levels.old new_positions.old)
        (columns new_roots.new new_levels.new new_positions.new) }
{
    let list = LeafList {
        roots,
        levels,
        positions,
    };
    let mut lent = LentColumns {
        roots: new_roots,
        levels: new_levels,
        positions: new_positions,
    };
    adaption::adapt(k, &list, marks, &mut lent).into()
}

// The p + 1 boundaries of p shares, at the front of the column.
#[unsafe(no_mangle)]
pub extern "C" fn gw_list_shares(
    k: u16,
    p: u16,
    roots: &[u16],
    levels: &[u8],
    positions: &[u64],
    weights: &[u16],
    boundaries: &mut [u32],
) -> u64
    ensures { SharesResult k p result (columns roots.now levels.now positions.now)
        weights.now boundaries.old boundaries.new }
{
    let list = LeafList {
        roots,
        levels,
        positions,
    };
    results::of_pass(shares::shares(k, p, &list, weights, boundaries))
}
