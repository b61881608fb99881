// The numbers of a grid file: "groups of seven bits, lowest group first, top bit set on all but the last byte, shortest form, three bytes at
// most."
#![tactic(auto)]

ghost use Rattle.std.specs.Prelude.{◌≡◌, leb, length};
ghost use Rattle.paper.specs.Outcome.{accepted, refuse_when_at};
ghost use Rattle.paper.specs.Refusals.{outcome_of};
ghost use Rattle.numbers.specs.Numbers.{bytes_of, byte_at, number_at};
ghost use Rattle.numbers.specs.Answers.{found_of};

use paper::Refusal;

// A number that was found: its value and the offset of what follows it.
#[derive(Clone, Copy)]
pub struct Found {
    pub value: u32,
    pub next: usize,
}

// The number whose first byte is at an offset. Refused: 19 where a byte is missing; 20 for a last byte 0 after an earlier one, and for a third
// byte with the top bit.
pub fn number_at(bytes: &[u8], at: usize) -> Result<Found, Refusal>
    ensures { found_of result ≡ number_at bytes.now at }
{
    let low = byte_at(bytes, at, at as u64)?;
    let second = at + 1;
    if low < 128 {
        return Ok(Found {
            value: low,
            next: second,
        });
    }
    let place = at as u64;
    let middle = byte_at(bytes, second, place)?;
    if middle == 0 {
        return Err(Refusal::NotShortest(place));
    }
    if middle < 128 {
        return Ok(Found {
            value: low - 128 + 128 * middle,
            next: at + 2,
        });
    }
    let high = byte_at(bytes, at + 2, place)?;
    if high == 0 {
        return Err(Refusal::NotShortest(place));
    }
    if 128 <= high {
        return Err(Refusal::NotShortest(place));
    }
    let value = low - 128 + 128 * (middle - 128) + 16384 * high;
    Ok(Found {
        value,
        next: at + 3,
    })
}

// A byte of a number, refused at the number's place.
fn byte_at(bytes: &[u8], at: usize, place: u64) -> Result<u32, Refusal>
    ensures { outcome_of result ≡ refuse_when_at (leb (length bytes.now) at) 19 place
        (accepted (byte_at bytes.now at)) }
{
    let byte = bytes.get(at).ok_or(Refusal::EndsEarly(place))?;
    Ok(u32::from(*byte))
}

// How many bytes a number has.
pub fn size(v: u32) -> usize
    ensures { result ≡ length (bytes_of v) }
{
    if v < 128 {
        return 1;
    }
    if v < 16384 {
        return 2;
    }
    3
}
