// The weights of a list: that none is 0, their sum, and where each share ends.
ghost use Rattle.std.specs.Prelude.{◌≡◌, false, ◌+◌, ◌*◌, ◌^◌, ◌≤◌, ◌<◌, length};
ghost use Rattle.paper.specs.Outcome.{passed, checks};
ghost use Rattle.paper.specs.Memory.{written};
ghost use Rattle.paper.specs.Refusals.{outcome_of};
ghost use Rattle.leaves.specs.Calls as lists;
ghost use Rattle.shares.specs.Shares as shares;
ghost use Rattle.shares.specs.Calls.{weight_fault};
ghost use Rattle.shares.specs.Inner.{Within, Stopped};

use paper::Refusal;

// How far a share goes: a leaf count, and the sum of the weights before it.
#[derive(Clone, Copy)]
struct Reach {
    count: usize,
    sum: u64,
}

// That no weight is 0. Refused: 16 at the first, which is looked for only where there is one.
pub(crate) fn check_weights(weights: &[u16]) -> Result<(), Refusal>
    ensures { outcome_of result ≡ checks weight_fault weights.now }
{
    if any_zero(weights) {
        return first_zero(weights);
    }
    Ok(())
}

// Whether any weight is 0. It reads all of them, in a loop and not by `any`: without a way out in between they go many at a time.
fn any_zero(weights: &[u16]) -> bool
    ensures { result ≡ false → checks weight_fault weights.now ≡ passed }
{
    let mut any = false;
    for weight in weights {
        any = any | (*weight == 0);
    }
    any
}

// The first weight 0, one weight at a time, refused. By `position` the two ways out found no proof.
fn first_zero(weights: &[u16]) -> Result<(), Refusal>
    ensures { outcome_of result ≡ checks weight_fault weights.now }
{
    for (i, weight) in weights.iter().enumerate() {
        if *weight == 0 {
            return Err(Refusal::NoWeight(i as u64));
        }
    }
    Ok(())
}

// The whole weight, part by part.
fn whole_weight(weights: &[u16]) -> u64
    requires { length weights.now ≤ lists.limit }
    ensures { (result ≡ shares.total weights.now) × (result ≤ 65535 * length weights.now) }
{
    let mut sum = 0;
    for part in weights.chunks(65536) {
        sum += u64::from(part_weight(part));
    }
    sum
}

// The weight of a part, in half a word so that more weights are added at a time; `sum` would add in the type of a weight.
fn part_weight(weights: &[u16]) -> u32
    requires { length weights.now ≤ 65536 }
    ensures { (result ≡ shares.total weights.now) × (result ≤ 65535 * length weights.now) }
{
    let mut sum = 0;
    for weight in weights {
        sum += u32::from(*weight);
    }
    sum
}

// From a leaf count on, 16 leaves at a time, as far as the sum of the weights stays within the limit.
fn stride(weights: &[u16], from: Reach, limit: u64) -> Reach
    requires { (limit < 2 ^ 48) × Within weights.now limit from.count from.sum }
    ensures { Within weights.now limit result.count result.sum }
{
    let mut at = from;
    for part in weights[from.count..].chunks_exact(16) {
        let sum = at.sum + part_weight(part) as u64;
        if limit < sum {
            return at;
        }
        at = Reach {
            count: at.count + 16,
            sum,
        };
    }
    at
}

// From a leaf count on, as far as the sum of the weights stays within the limit: in strides, then leaf by leaf.
fn advance(weights: &[u16], from: Reach, limit: u64) -> Reach
    requires { (limit < 2 ^ 48) × Within weights.now limit from.count from.sum }
    ensures { Stopped weights.now limit result.count result.sum }
{
    let near = stride(weights, from, limit);
    let mut sum = near.sum;
    for count in near.count..weights.len() {
        let next = sum + weights[count] as u64;
        if limit < next {
            return Reach { count, sum };
        }
        sum = next;
    }
    Reach {
        count: weights.len(),
        sum,
    }
}

// The boundaries of p shares, from 0 to p: p times a sum is within s times the whole weight where the sum is within the limit of s.
pub(crate) fn divide(p: u16, weights: &[u16], boundaries: &mut [u32])
    requires { (0 < p) × ((p ≤ lists.most) × ((length weights.now ≤ lists.limit) × (p < length boundaries.old))) }
    ensures { boundaries.new ≡ written (shares.boundaries p weights.now) boundaries.old }
{
    let whole = whole_weight(weights);
    let mut at = Reach { count: 0, sum: 0 };
    for s in 0..=p as usize {
        let parts = s as u64 * whole;
        let limit = parts / p as u64;
        at = advance(weights, at, limit);
        boundaries[s] = at.count as u32;
    }
}
