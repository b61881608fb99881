// The input of a program that the first bytes decide.
ghost use Rattle.std.specs.Io.{ReadsAtMost};

use std::io::{self, Read};

// Reads until the line is full or the input ends, and returns how many bytes were read, at the front of the line.
pub fn read_full<R: Read>(input: &mut R, line: &mut [u8]) -> io::Result<usize>
    ensures { ReadsAtMost result line.new }
{
    let mut size = 0;
    // A while: each turn goes on by as many bytes as came, so no range or iterator has its steps.
    while size < line.len() {
        let read = input.read(&mut line[size..])?;
        if read == 0 {
            break;
        }
        size += read;
    }
    Ok(size)
}
