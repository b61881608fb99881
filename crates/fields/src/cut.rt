// Where the fields of a line begin and end.
ghost use Rattle.std.specs.Prelude.{◌≡◌, eqb, length, drop};
ghost use Rattle.fields.specs.Inner.{piece, next, closes};

// Whether a field ends at `i`: there is a semicolon or LF, or nothing.
pub fn ends(input: &[u8], i: usize) -> bool
    ensures { result ≡ eqb (length (piece (drop i input.now))) 0 }
{
    match input.get(i) {
        Some(b) => *b == b'\n' || *b == b';',
        None => true,
    }
}

// Where the field after the one that ended at `end` begins; past the input where there is none.
// A place and no Option: a missing field is read, and refused, like one that is no number. With an Option `read` would test twice for one refusal.
pub fn after(input: &[u8], end: usize) -> usize
    ensures { result ≡ next input.now end }
{
    match input.get(end) {
        Some(b';') => end + 1,
        _ => input.len() + 1,
    }
}

// Whether the field that ended at `end` is followed by LF, and the LF by nothing.
pub fn closing(input: &[u8], end: usize) -> bool
    ensures { result ≡ closes input.now end }
{
    matches!(input.get(end..), Some([b'\n']))
}
