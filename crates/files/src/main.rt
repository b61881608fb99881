// Runs document 01's file examples: the files of a uniform start and of its leaf 2 refined, read back; and two numbers of a file.
#![tactic(auto)]

use columns::LentColumns;
use leaves::LeafList;
use paper::Refusal;
use reader::Grid;
use std::io;

// The same in `lists`: two small programs share the library alone, which has no arrays of its own.
// Three columns of so many entries.
#[derive(Drop)]
struct Entries<const N: usize> {
    roots: [u16; N],
    levels: [u8; N],
    positions: [u64; N],
}

impl<const N: usize> Entries<N> {
    fn new() -> Self {
        Entries {
            roots: [0; N],
            levels: [0; N],
            positions: [0; N],
        }
    }

    fn list(&self) -> LeafList<'_> {
        LeafList {
            roots: &self.roots,
            levels: &self.levels,
            positions: &self.positions,
        }
    }

    fn lent(&mut self) -> LentColumns<'_> {
        LentColumns {
            roots: &mut self.roots,
            levels: &mut self.levels,
            positions: &mut self.positions,
        }
    }
}

// The file of one root at level 1.
fn uniform(bytes: &mut [u8]) -> Result<u64, Refusal> {
    let mut entries = Entries::<8>::new();
    columns::uniform(1, 1, &mut entries.lent())?;
    writer::write(1, &entries.list(), bytes)
}

// The same with leaf 2 refined.
fn refined(bytes: &mut [u8]) -> Result<u64, Refusal> {
    let mut entries = Entries::<8>::new();
    let mut finer = Entries::<15>::new();
    columns::uniform(1, 1, &mut entries.lent())?;
    let marks = [0, 0, 1, 0, 0, 0, 0, 0];
    adaption::adapt(1, &entries.list(), &marks, &mut finer.lent())?;
    writer::write(1, &finer.list(), bytes)
}

// The bytes in hexadecimal on the rest of the line.
fn say_bytes(rt: &impl Print, bytes: &[u8]) -> io::Result<()> {
    for byte in bytes {
        print!(rt; " {byte:02x}")?;
    }
    println!(rt;)
}

// A file that was written, and what it is read back as.
fn say_file(rt: &impl Print, written: Result<u64, Refusal>, bytes: &[u8]) -> io::Result<()> {
    match written {
        Ok(_) => say_bytes(rt, bytes)?,
        Err(refusal) => println!(rt; "{refusal}")?,
    }
    print!(rt; "read back: ")?;
    say_grid(rt, bytes)
}

// What a file is read as, with room for fifteen leaves.
fn say_grid(rt: &impl Print, bytes: &[u8]) -> io::Result<()> {
    let mut entries = Entries::<15>::new();
    match reader::read(bytes, &mut entries.lent()) {
        Ok(Grid { roots, leaves }) => println!(rt; "{roots} roots, {leaves} leaves"),
        Err(refusal) => println!(rt; "{refusal}"),
    }
}

fn main(rt: HostRuntime) -> io::Result<()> {
    let mut file = [0; 8];
    print!(rt; "uniform at level 1:")?;
    say_file(&rt, uniform(&mut file), &file)?;
    let mut file = [0; 12];
    print!(rt; "leaf 2 refined:")?;
    say_file(&rt, refined(&mut file), &file)?;
    // Four roots at level 6: their 1,048,576 leaves are the number 80 80 40, and more than there is room for.
    print!(rt; "80 80 40 leaves: ")?;
    say_grid(&rt, &[80, 71, 82, 49, 4, 1, 6, 128, 128, 64])?;
    print!(rt; "81 00 roots: ")?;
    say_grid(&rt, &[80, 71, 82, 49, 129, 0])
}
