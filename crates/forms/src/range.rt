// The range of each field's number. A check takes the field, at which it refuses.
ghost use Rattle.std.specs.Prelude.{◌≡◌, ◌*◌, ◌^◌, ltb};
ghost use Rattle.paper.specs.Outcome.{fault_when};
ghost use Rattle.paper.specs.Refusals.{outcome_of};
ghost use Rattle.leaves.specs.Leaves.{CHILDREN};
ghost use Rattle.leaves.specs.Calls.{limit, out_of_range};
ghost use Rattle.forms.specs.Inner.{checked};

use paper::Refusal;

// The most roots, and the most shares.
const MOST: u64 = leaves::MOST as u64;

// The most leaves of a list.
const LIMIT: u64 = leaves::LIMIT as u64;

// The highest level of a prism.
const HIGHEST: u64 = tree::HIGHEST as u64;

// A number of roots or shares: 17 outside 1 to 4,096.
pub(crate) fn check_count(v: u64, field: u64) -> Result<(), Refusal>
    ensures { outcome_of result ≡ checked (fault_when (out_of_range v) 17 0) field }
{
    if v == 0 || MOST < v {
        return Err(Refusal::OutOfRange(field));
    }
    Ok(())
}

// The highest level: 1 above a prism's.
pub(crate) fn check_highest(v: u64, field: u64) -> Result<(), Refusal>
    ensures { outcome_of result ≡ checked (fault_when (ltb HIGHEST v) 1 0) field }
{
    if HIGHEST < v {
        return Err(Refusal::LevelTooHigh(field));
    }
    Ok(())
}

// Whether k roots have too many leaves at a level.
fn too_many(k: u64, level: u64) -> bool
    ensures { result ≡ ltb limit (k * CHILDREN ^ level) }
{
    k != 0 && (6 < level || LIMIT >> (3 * level) < k)
}

// The initial level v of k roots: 23 above the highest level, 15 for too many leaves.
pub(crate) fn check_level(v: u64, k: u64, highest: u64, field: u64) -> Result<(), Refusal>
    ensures { outcome_of result ≡ checked (fault_when (ltb highest v) 23 (fault_when (ltb limit (k * CHILDREN ^ v)) 15 0)) field }
{
    if highest < v {
        return Err(Refusal::UnfitField(field));
    }
    if too_many(k, v) {
        return Err(Refusal::TooManyLeaves(field));
    }
    Ok(())
}
