// The order program: one call from the bytes of its input to the bytes that it prints. The contract is the call of `specs/Calls.antt`.
#![tactic(auto)]

ghost use Rattle.orders.specs.Calls.{Answered};

use paper::Refusal;

pub mod input;

// The first bytes of the input decide: no more need be read.
pub const LONGEST_INPUT: usize = 71;

// No output is longer.
pub const LONGEST_OUTPUT: usize = 86212;

// What the program prints on the input, at the front of the lent buffer, and how many bytes that is. Refused: 14, with the bytes needed.
pub fn answer(input: &[u8], out: &mut [u8]) -> Result<u64, Refusal>
    ensures { Answered result input.now out.old out.new }
{
    let asked = forms::read(input);
    // With room for every output, it is printed once.
    if out.len() < LONGEST_OUTPUT {
        return text::answer(asked, out);
    }
    Ok(text::print(asked, out) as u64)
}
