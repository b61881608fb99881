// How far a grid file is sound: what stands in front of its runs, then its runs in turn, to the first fault. Nothing is written.
// The code counts in prisms, by leaves::BITS and tree::HIGHEST; the laws are over any number of children and any highest level.
#![tactic(auto)]

ghost use Rattle.std.specs.Prelude.{◌≡◌};
ghost use Rattle.tree.specs.Anchors.{HIGHEST};
ghost use Rattle.leaves.specs.Leaves.{CHILDREN};
ghost use Rattle.format.specs.Reading as reading;
ghost use Rattle.format.specs.Reading.{head_at};
ghost use Rattle.sounding.specs.Answers.{front_of, head_of, Tells};

use format::TAG;
use paper::Refusal;

mod spot;
mod walk;

use walk::Walk;

// What stands in front of the runs: the roots, the number of runs and the offset of the first.
#[derive(Clone, Copy)]
pub struct Head {
    pub roots: u16,
    pub runs: u32,
    pub at: usize,
}

// Where a list has come to: a root, and a smallest cell of it.
#[derive(Clone, Copy)]
pub struct Cursor {
    pub root: u64,
    pub cell: u64,
}

// How far the runs of a file are sound: how many runs, and how many leaves they have; where these end; the offset of what follows; the fault
// there.
#[derive(Clone, Copy)]
pub struct Sounding {
    pub runs: u32,
    pub leaves: u64,
    pub come: Cursor,
    pub next: usize,
    pub fault: Result<(), Refusal>,
}

// The roots, the number of runs and the offset of the first. Refused: 18; 17 at K; 21 at the number of runs; 19 and 20 at either.
pub fn head_at(bytes: &[u8]) -> Result<Head, Refusal>
    ensures { head_of result ≡ head_at bytes.now }
{
    if !bytes.starts_with(&TAG) {
        return Err(Refusal::NoTag(0));
    }
    let roots = numbers::number_at(bytes, 4)?;
    if roots.value == 0 || u32::from(leaves::MOST) < roots.value {
        return Err(Refusal::OutOfRange(4));
    }
    let runs = numbers::number_at(bytes, roots.next)?;
    if runs.value == 0 || leaves::LIMIT < runs.value as usize {
        return Err(Refusal::UnfitRuns(roots.next as u64));
    }
    Ok(Head {
        roots: roots.value as u16,
        runs: runs.value,
        at: runs.next,
    })
}

// The runs of a file behind its head, in turn: to the first fault, or to the end of the file.
pub fn sound(head: Head, bytes: &[u8]) -> Sounding
    ensures { Tells result (reading.sound CHILDREN HIGHEST bytes.now (front_of head)) }
{
    let mut walk = Walk::start(head.at);
    for kept in 0..head.runs {
        match walk.run_at(head.roots, bytes) {
            Ok(run) => walk = walk.after(run),
            Err(refusal) => return walk.stopped(kept, Err(refusal)),
        }
    }
    walk.stopped(head.runs, walk.ended(head.roots, bytes))
}
