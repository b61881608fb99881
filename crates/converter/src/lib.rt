// The converter for stored order lines: one call from the bytes of a line to the bytes that it prints. The contract is the call of
// `specs/Calls.antt`.
#![tactic(auto)]

ghost use Rattle.text.specs.Text.{Prints};
ghost use Rattle.converter.specs.Calls.{Converts};
ghost use Rattle.converter.specs.Inner.{kept};

use orders::LONGEST_INPUT;
use paper::Refusal;

mod fill;

// No output is longer.
pub const LONGEST_LINE: usize = 45;

// The first bytes, which decide, and the 2.
const ROOM: usize = 72;

// The line as it is, where it fits. Refused: 14, with the bytes needed.
fn copied(line: &[u8], out: &mut [u8]) -> Result<u64, Refusal>
    ensures { Prints line.now result out.old out.new }
{
    if out.len() < line.len() {
        return Err(Refusal::NoRoom(line.len() as u64));
    }
    text::lay(out, 0, line);
    Ok(line.len() as u64)
}

// A line without a gap: itself where the order program accepts it, else its refusal.
fn kept(line: &[u8], out: &mut [u8]) -> Result<u64, Refusal>
    ensures { Prints (kept line.now) result out.old out.new }
{
    match forms::read(line) {
        Ok(_) => copied(line, out),
        Err(refusal) => text::answer(Err(refusal), out),
    }
}

// What the converter prints on the input, at the front of the lent buffer, and how many bytes that is. Refused: 14, with the bytes needed.
pub fn convert(input: &[u8], out: &mut [u8]) -> Result<u64, Refusal>
    ensures { Converts result input.now out.old out.new }
{
    // The first bytes decide.
    let line = &input[..text::fitting(input.len(), LONGEST_INPUT)];
    let Some(at) = fill::gap(line) else {
        return kept(line, out);
    };
    // The old rule is the order program's on the line with the 2 put in.
    let mut room = [0u8; ROOM];
    kept(fill::fill(line, at, &mut room), out)
}
