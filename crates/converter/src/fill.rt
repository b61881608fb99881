// The line with a 2 put in where field seven is empty.
ghost use Rattle.std.specs.Prelude.{◌≡◌, ◌≤◌, ◌<◌, length, IfSome};
ghost use Rattle.converter.specs.Inner.{begins, filled, gap, or_past};

use fields::cut;

// Where field seven begins: after six semicolons.
fn seventh(input: &[u8]) -> Option<usize>
    ensures spot { or_past input.now result ≡ begins 6 input.now }
    ensures in_bounds { IfSome result (λ at. at ≤ length input.now) }
{
    // Counted by hand: with `take_while`, `filter` and `nth(5)` over the places it was tried, and the contract stayed unproved.
    let mut left: u8 = 6;
    for (i, b) in input.iter().enumerate() {
        if *b == b'\n' {
            return None;
        }
        if *b == b';' {
            left -= 1;
            if left == 0 {
                return Some(i + 1);
            }
        }
    }
    None
}

// Where an empty field seven begins.
pub(crate) fn gap(input: &[u8]) -> Option<usize>
    ensures spot { or_past input.now result ≡ gap input.now }
    ensures in_bounds { IfSome result (λ at. at ≤ length input.now) }
{
    seventh(input).filter(|at| cut::ends(input, *at))
}

// The line with a 2 put in at `at`, in a buffer with room for it.
pub(crate) fn fill<'a>(input: &[u8], at: usize, room: &'a mut [u8]) -> &'a [u8]
    requires at_in_bounds { at ≤ length input.now }
    requires input_in_bounds { length input.now < length room.old }
    ensures { result.now ≡ filled input.now at }
{
    text::lay(room, 0, &input[..at]);
    text::lay(room, at, b"2");
    text::lay(room, at + 1, &input[at..]);
    &room[..input.len() + 1]
}
