// Runs document 01's list examples: what a uniform start needs, a leaf refined and merged back, and the shares of four weights.
#![tactic(auto)]

use columns::LentColumns;
use leaves::LeafList;
use paper::Refusal;
use std::io;

// The same in `files`: two small programs share the library alone, which has no arrays of its own.
// Three columns of so many entries.
#[derive(Drop)]
struct Entries<const N: usize> {
    roots: [u16; N],
    levels: [u8; N],
    positions: [u64; N],
}

impl<const N: usize> Entries<N> {
    fn new() -> Self {
        Entries {
            roots: [0; N],
            levels: [0; N],
            positions: [0; N],
        }
    }

    fn list(&self) -> LeafList<'_> {
        LeafList {
            roots: &self.roots,
            levels: &self.levels,
            positions: &self.positions,
        }
    }

    fn lent(&mut self) -> LentColumns<'_> {
        LentColumns {
            roots: &mut self.roots,
            levels: &mut self.levels,
            positions: &mut self.positions,
        }
    }
}

fn say(rt: &impl Print, a: Result<u64, Refusal>) -> io::Result<()> {
    match a {
        Ok(n) => println!(rt; "{n} leaves"),
        Err(refusal) => println!(rt; "{refusal}"),
    }
}

// How many leaves the roots have at a level: without room the refusal 14 names the count.
fn needed(rt: &impl Print, k: u16, level: u8) -> io::Result<()> {
    let mut entries = Entries::<1>::new();
    print!(rt; "roots {k} level {level}: ")?;
    say(rt, columns::uniform(k, level, &mut entries.lent()))
}

// One root at level 1, leaf 2 refined, and all leaves marked 2 next.
fn refined_and_merged(rt: &impl Print) -> io::Result<()> {
    let mut entries = Entries::<8>::new();
    let mut finer = Entries::<15>::new();
    print!(rt; "uniform at level 1: ")?;
    say(rt, columns::uniform(1, 1, &mut entries.lent()))?;
    let marks: [u8; 8] = [0, 0, 1, 0, 0, 0, 0, 0];
    print!(rt; "leaf 2 refined: ")?;
    say(
        rt,
        adaption::adapt(1, &entries.list(), &marks, &mut finer.lent()),
    )?;
    let twos: [u8; 15] = [2; 15];
    print!(rt; "all marked 2: ")?;
    say(
        rt,
        adaption::adapt(1, &finer.list(), &twos, &mut entries.lent()),
    )
}

// The numbers of a column on the rest of the line.
fn say_column(rt: &impl Print, column: &[u32]) -> io::Result<()> {
    for n in column {
        print!(rt; " {n}")?;
    }
    println!(rt;)
}

// Weights 1, 1, 1, 5 on four roots in two shares.
fn two_shares(rt: &impl Print) -> io::Result<()> {
    let list = LeafList {
        roots: &[0, 1, 2, 3],
        levels: &[0; 4],
        positions: &[0; 4],
    };
    let weights: [u16; 4] = [1, 1, 1, 5];
    let mut boundaries: [u32; 3] = [9; 3];
    print!(rt; "boundaries of 1, 1, 1, 5 in two shares:")?;
    match shares::shares(4, 2, &list, &weights, &mut boundaries) {
        Ok(()) => say_column(rt, &boundaries),
        Err(refusal) => println!(rt; "{refusal}"),
    }
}

fn main(rt: HostRuntime) -> io::Result<()> {
    needed(&rt, 1, 6)?;
    needed(&rt, 1, 7)?;
    needed(&rt, 4, 6)?;
    needed(&rt, 5, 6)?;
    refined_and_merged(&rt)?;
    two_shares(&rt)
}
