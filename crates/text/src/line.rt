// The lines that are printed.
ghost use Rattle.std.specs.Prelude.{◌+◌, ◌*◌, ◌/◌, ◌^◌, ◌≤◌, ◌<◌};
ghost use Rattle.forms.specs.Forms.{form_of};
ghost use Rattle.text.specs.Text.{share_line, share_lines, first_line, refusal_line};
ghost use Rattle.text.specs.Inner.{Wrote, spelled};

use crate::writer::Writer;
use forms::Form;
use paper::Refusal;

impl<'a> Writer<'a> {
    // The line of an order.
    fn first_line(&mut self, f: Form)
        requires { self.old.at + 190 < 2 ^ 64 }
        ensures wrote { Wrote (first_line f) self.old self.new }
        ensures upper_bound { self.new.at ≤ self.old.at + 190 }
    {
        self.entry(b"order ", f.order, b' ');
        self.entry(b"site ", f.site, b' ');
        self.entry(b"model ", f.model, b' ');
        self.entry(b"roots ", f.roots, b' ');
        self.entry(b"level ", f.level, b' ');
        self.entry(b"leaves ", u64::from(f.leaves), b' ');
        self.entry(b"shares ", u64::from(f.shares), b'\n');
    }

    // The line of share s, which holds the leaves from `from` up to `to`.
    fn share_line(&mut self, s: u64, from: u64, to: u64)
        requires from_le_to { from ≤ to }
        requires at_bound { self.old.at + 63 < 2 ^ 64 }
        ensures wrote { Wrote (share_line s from to) self.old self.new }
        ensures upper_bound { self.new.at ≤ self.old.at + 63 }
    {
        self.number(s, b' ');
        self.number(from, b' ');
        self.number(to - from, b'\n');
    }

    // The lines of p shares of n leaves of equal weight: share s begins at leaf s·n / p, the thesis's formula 27.
    fn share_lines(&mut self, n: u32, p: u16)
        requires { self.old.at ≤ 1000 }
        ensures { Wrote (share_lines (λ s. s * n / p) p) self.old self.new }
    {
        let (n, p) = (u64::from(n), u64::from(p));
        let mut from = 0;
        for s in 0..p {
            let to = (s + 1) * n / p;
            self.share_line(s, from, to);
            from = to;
        }
    }

    // The one line of a refusal: its number, and the field.
    pub(crate) fn refusal(&mut self, number: u8, field: u64)
        requires { self.old.at + 56 < 2 ^ 64 }
        ensures { Wrote (refusal_line number field) self.old self.new }
    {
        self.entry(b"refused ", u64::from(number), b' ');
        self.entry(b"field ", field, b'\n');
    }

    // An order's lines, or the one line of a refusal.
    pub(crate) fn asked(&mut self, asked: Result<Form, Refusal>)
        requires { self.old.at ≤ 800 }
        ensures { Wrote (spelled (form_of asked)) self.old self.new }
    {
        match asked {
            Ok(f) => {
                self.first_line(f);
                self.share_lines(f.leaves, f.shares);
            }
            Err(r) => self.refusal(r.number(), r.place()),
        }
    }
}
