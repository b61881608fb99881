// The order program: reads one line from standard input and prints what it asks for, or one line of refusal. The first bytes of the input
// decide, and no output is longer than the buffer (`orders`, `specs/Laws.antt`).
// `convert` has a main of its own: a shared one would take the call and, as a const argument, the buffer's length, and be as long as both.
#![tactic(auto)]

use orders::input::read_full;
use orders::{LONGEST_INPUT, LONGEST_OUTPUT};
use std::io;

fn main(rt: HostRuntime) -> io::Result<()> {
    let mut line = [0u8; LONGEST_INPUT];
    let mut text = [0u8; LONGEST_OUTPUT];
    let read = read_full(&mut rt.stdin(), &mut line)?;
    // Never refused: the proof has to show that the buffer is long enough for every output.
    let size = orders::answer(&line[..read], &mut text).unwrap();
    rt.write_all(&text[..size as usize])
}
