// The number in a field.
ghost use Rattle.std.specs.Prelude.{◌≡◌, ◌≤◌, ◌<◌, length, get_or};
ghost use Rattle.fields.specs.Inner.{Ran, zero_first, numbered_of, number_at};

use crate::cut;
use paper::Refusal;

// The most digits of a number.
const MOST: usize = 9;

// The number in a field, and where the field ends.
#[derive(Clone, Copy)]
pub struct Number {
    pub value: u64,
    pub end: usize,
}

// Some digits: what they say, and how many there are.
#[derive(Clone, Copy)]
struct Run {
    number: u64,
    count: usize,
}

// The digits from `at` on, up to the first other byte; no more than a number has.
fn digits(input: &[u8], at: usize) -> Run
    requires { at ≤ length input.now }
    ensures { Ran input.now at result }
{
    let most = MOST.min(input.len() - at);
    let mut number: u64 = 0;
    for (k, b) in input[at..at + most].iter().enumerate() {
        if !b.is_ascii_digit() {
            return Run { number, count: k };
        }
        number = number * 10 + u64::from(b - b'0');
    }
    Run {
        number,
        count: most,
    }
}

// Whether a zero stands at `at`, the first of so many digits and not the only one.
fn leading_zero(input: &[u8], at: usize, count: usize) -> bool
    requires { at < length input.now }
    ensures { result ≡ zero_first (get_or input.now at 0) count }
{
    input[at] == b'0' && count != 1
}

// The number in the field that begins at `at`: 1 to 9 digits without a leading zero, except 0 itself. Refused: 23.
pub fn number_at(input: &[u8], at: usize) -> Result<Number, Refusal>
    ensures { numbered_of result ≡ number_at input.now at }
{
    if input.len() <= at {
        return Err(Refusal::UnfitField(0));
    }
    let run = digits(input, at);
    let end = at + run.count;
    if run.count == 0 || !cut::ends(input, end) || leading_zero(input, at, run.count) {
        return Err(Refusal::UnfitField(0));
    }
    Ok(Number {
        value: run.number,
        end,
    })
}
