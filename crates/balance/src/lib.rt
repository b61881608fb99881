// Whether a leaf list is balanced. The contract is the call of `specs/Balance.antt` at eight children and highest level 21.
#![tactic(auto)]

ghost use Rattle.std.specs.Prelude.{◌≡◌, ◌&&◌, List, ℕ, ◌+◌, ◌<◌, leb, length};
ghost use Rattle.paper.specs.Refusals.{outcome_of};
ghost use Rattle.tree.specs.Anchors.{HIGHEST};
ghost use Rattle.leaves.specs.Leaves.{CHILDREN, columns, leaves};
ghost use Rattle.balance.specs.Balance.{is_balanced, balanced};

use leaves::LeafList;
use paper::Refusal;

// Whether any two leaves that follow one another in one root differ by at most one level. Refused: 17, 11, then 1, 5, 12 at each leaf.
pub fn balanced(k: u16, list: &LeafList) -> Result<bool, Refusal>
    ensures { outcome_of result ≡ balanced CHILDREN HIGHEST k list.now }
{
    leaves::check_list(k, list)?;
    Ok(all_near(list.roots, list.levels))
}

// Each leaf after the first beside the one before it; positions do not matter. It reads all of them: without a way out in between they
// go many at a time.
fn all_near(roots: &[u16], levels: &[u8]) -> bool
    requires { (0 < length roots.now) × (length roots.now ≡ length levels.now) }
    ensures { (positions : List ℕ) → result ≡ is_balanced (leaves (columns roots.now levels.now positions)) }
{
    let mut all = true;
    for i in 1..roots.len() {
        let near = near_levels(levels[i - 1], levels[i]);
        all = all & ((roots[i - 1] != roots[i]) | near);
    }
    all
}

// Whether two levels differ by at most one.
fn near_levels(level: u8, level2: u8) -> bool
    ensures { result ≡ (leb level (level2 + 1) && leb level2 (level + 1)) }
{
    level.abs_diff(level2) <= 1
}
