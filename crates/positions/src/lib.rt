// A column of positions of prisms, all at one level: the test that the level has them.
#![tactic(auto)]

ghost use Rattle.std.specs.Prelude.{◌≡◌, ℕ, ◌<◌, ◌≤◌, length, get_or};
ghost use Rattle.paper.specs.Outcome.{checks};
ghost use Rattle.paper.specs.Refusals.{outcome_of};
ghost use Rattle.tree.specs.Anchors.{HIGHEST};
ghost use Rattle.positions.specs.Positions.{position_fault, check_positions};

use paper::Refusal;
use prism::Prism;
use tree::HIGHEST;
use tree::element::Element;

// The first fault: 1 for the level, or 5 at the first position that the level has not. It is looked for only where there may be one.
pub fn check(level: u8, positions: &[u64]) -> Result<(), Refusal>
    ensures { outcome_of result ≡ check_positions level positions.now }
{
    if HIGHEST < level {
        return Err(Refusal::LevelTooHigh(0));
    }
    if merged(positions) < 1u64 << (Prism::BITS * level) {
        return Ok(());
    }
    first_beyond(level, positions)
}

// All the bits of the positions: no position is larger. Without a way out in between they go many at a time.
fn merged(positions: &[u64]) -> u64
    ensures { (j : ℕ) → j < length positions.now → get_or positions.now j 0 ≤ result }
{
    let mut bits = 0;
    for position in positions {
        bits |= *position;
    }
    bits
}

// The first position that the level has not, one position at a time. By `position` the two ways out found no proof.
#[tactic(auto, using(crate::proofs::Checking::position_found, crate::proofs::Checking::position_next))]
fn first_beyond(level: u8, positions: &[u64]) -> Result<(), Refusal>
    requires { level ≤ HIGHEST }
    ensures { outcome_of result ≡ checks (position_fault level) positions.now }
{
    for (i, position) in positions.iter().enumerate() {
        if 1u64 << (Prism::BITS * level) <= *position {
            return Err(Refusal::NoPosition(i as u64));
        }
    }
    Ok(())
}
