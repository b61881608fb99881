// What is printed, put into a lent buffer. A byte past the buffer's end is left out; an answer counts it, so that a first pass over a short
// buffer finds how many there are.
#![tactic(auto)]

ghost use Rattle.std.specs.Prelude.{◌≡◌, min};
ghost use Rattle.std.proofs.lemmas.List.Edits.{sets};
ghost use Rattle.forms.specs.Forms.{form_of};
ghost use Rattle.text.specs.Text.{Prints, refusal_line};
ghost use Rattle.text.specs.Inner.{Put, spelled};

use forms::Form;
use paper::Refusal;
use writer::Writer;

mod line;
mod writer;

// How many of n bytes there is room for: public, and so it stays beside `min`.
pub fn fitting(n: usize, room: usize) -> usize
    ensures { result ≡ min n room }
{
    n.min(room)
}

// Some bytes, from `at` on; those past the end are left out. One by one: `copy_from_slice` would want `memmove`, which the archive for C needs
// nowhere else. Not inlined: what is usual goes through `Writer::word`.
#[inline(never)]
pub fn lay(out: &mut [u8], at: usize, text: &[u8])
    ensures { out.new ≡ sets out.old at text.now }
{
    if out.len() <= at {
        return;
    }
    let n = fitting(text.len(), out.len() - at);
    for i in 0..n {
        out[at + i] = text[i];
    }
}

// All that is printed, at the front of a lent buffer, and how many bytes that is.
pub fn print(asked: Result<Form, Refusal>, out: &mut [u8]) -> usize
    ensures { Put (spelled (form_of asked)) 0 out.old out.new result }
{
    let mut w = Writer { out, at: 0 };
    w.asked(asked);
    w.at
}

// The same, where it fits. Refused: 14, with the bytes needed.
pub fn answer(asked: Result<Form, Refusal>, out: &mut [u8]) -> Result<u64, Refusal>
    ensures { Prints (spelled (form_of asked)) result out.old out.new }
{
    // The first time for the length alone: nothing is written before it is known to fit.
    let size = print(asked, &mut []);
    if out.len() < size {
        return Err(Refusal::NoRoom(size as u64));
    }
    print(asked, out);
    Ok(size as u64)
}

// The one line of a refusal of any number, one of the paper's or not, and how many bytes it has.
pub fn print_refusal(number: u8, field: u64, out: &mut [u8]) -> usize
    ensures { Put (refusal_line number field) 0 out.old out.new result }
{
    let mut w = Writer { out, at: 0 };
    w.refusal(number, field);
    w.at
}

// That line, where it fits. Refused: 14, with the bytes needed.
pub fn answer_refusal(number: u8, field: u64, out: &mut [u8]) -> Result<u64, Refusal>
    ensures { Prints (refusal_line number field) result out.old out.new }
{
    let needed = print_refusal(number, field, &mut []);
    if out.len() < needed {
        return Err(Refusal::NoRoom(needed as u64));
    }
    print_refusal(number, field, out);
    Ok(needed as u64)
}
