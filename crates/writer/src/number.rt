// The bytes of a number, stored.
ghost use Rattle.std.specs.Prelude.{◌≡◌, ◌+◌, ◌≤◌, length};
ghost use Rattle.std.proofs.lemmas.List.Edits.{sets};
ghost use Rattle.numbers.specs.Numbers.{highest, bytes_of};

// The bytes of a number, stored from an offset on. The answer is the offset of what follows them: with that, three calls in a row are as plain as with a
// cursor.
pub(crate) fn put(v: u32, at: usize, bytes: &mut [u8]) -> usize
    requires v_le_highest { v ≤ highest }
    requires v_in_bounds { at + length (bytes_of v) ≤ length bytes.old }
    ensures next { result ≡ at + length (bytes_of v) }
    ensures stored { bytes.new ≡ sets bytes.old at (bytes_of v) }
{
    if v < 128 {
        bytes[at] = v as u8;
        return at + 1;
    }
    let low = (v % 128 + 128) as u8;
    if v < 16384 {
        bytes[at..at + 2].copy_from_slice(&[low, (v / 128) as u8]);
        return at + 2;
    }
    let middle = (v / 128 % 128 + 128) as u8;
    bytes[at..at + 3].copy_from_slice(&[low, middle, (v / 16384) as u8]);
    at + 3
}
