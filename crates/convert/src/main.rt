// The converter: reads one stored order line from standard input and prints it with the 2 that an empty field seven meant, or the old refusal.
// The first bytes of the input decide, and no output is longer than the buffer (`converter`, `specs/Laws.antt`).
// A main beside the order program's: a shared one would take the call and, as a const argument, the buffer's length, and be as long as both.
#![tactic(auto)]

use converter::LONGEST_LINE;
use orders::LONGEST_INPUT;
use orders::input::read_full;
use std::io;

fn main(rt: HostRuntime) -> io::Result<()> {
    let mut line = [0u8; LONGEST_INPUT];
    let mut text = [0u8; LONGEST_LINE];
    let read = read_full(&mut rt.stdin(), &mut line)?;
    // Never refused: the proof has to show that the buffer is long enough for every output.
    let size = converter::convert(&line[..read], &mut text).unwrap();
    rt.write_all(&text[..size as usize])
}
