// A cursor over a lent buffer: what is written stands byte after byte from its front on. A byte past the buffer's end is left out, and counted.
ghost use Rattle.std.specs.Prelude.{◌≡◌, ◌+◌, ◌^◌, ◌≤◌, ◌<◌, [], ◌∷◌, length};
ghost use Rattle.text.specs.Text.{decimal, counted, entry};
ghost use Rattle.text.specs.Inner.{Wrote};

use crate::lay;
use itoa::Buffer;

// The buffer, and where the next byte goes.
#[derive(Drop)]
pub(crate) struct Writer<'a> {
    pub out: &'a mut [u8],
    pub at: usize,
}

impl<'a> Writer<'a> {
    fn byte(&mut self, b: u8)
        requires { self.old.at + 1 < 2 ^ 64 }
        ensures { Wrote (b ∷ []) self.old self.new }
    {
        if self.at < self.out.len() {
            self.out[self.at] = b;
        }
        self.at += 1;
    }

    // Some bytes. Where all of them fit they are copied here, inlined, so that a word of a known length takes a store or two.
    #[inline(always)]
    fn word(&mut self, text: &[u8])
        requires { self.old.at + length text.now < 2 ^ 64 }
        ensures { Wrote text.now self.old self.new }
    {
        let end = self.at + text.len();
        if end <= self.out.len() {
            self.out[self.at..end].copy_from_slice(text);
            self.at = end;
            return;
        }
        lay(self.out, self.at, text);
        self.at = end;
    }

    // A number's digits. One digit is put by itself: through the buffer of `itoa` it would be written, and read again, for nothing.
    fn digits(&mut self, n: u64)
        requires { self.old.at + 20 < 2 ^ 64 }
        ensures { Wrote (decimal n) self.old self.new }
    {
        if n < 10 {
            self.byte(b'0' + n as u8);
            return;
        }
        let mut digits = Buffer::new();
        self.word(digits.format(n).as_bytes());
    }

    // A number, and the byte after it.
    pub(crate) fn number(&mut self, n: u64, after: u8)
        requires { self.old.at + 21 < 2 ^ 64 }
        ensures wrote { Wrote (counted n after) self.old self.new }
        ensures upper_bound { self.new.at ≤ self.old.at + 21 }
    {
        self.digits(n);
        self.byte(after);
    }

    // A word, and a number with the byte after it.
    pub(crate) fn entry(&mut self, text: &[u8], n: u64, after: u8)
        requires { self.old.at + length text.now + 21 < 2 ^ 64 }
        ensures wrote { Wrote (entry text.now n after) self.old self.new }
        ensures upper_bound { self.new.at ≤ self.old.at + length text.now + 21 }
    {
        self.word(text);
        self.number(n, after);
    }
}
