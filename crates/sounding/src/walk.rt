// The runs of a file in turn. A run is tested without being expanded, counted in leaves of its own level.
ghost use Rattle.std.specs.Prelude.{◌≡◌, ℕ, ◌+◌};
ghost use Rattle.paper.specs.Refusals.{outcome_of};
ghost use Rattle.tree.specs.Anchors.{HIGHEST};
ghost use Rattle.leaves.specs.Leaves.{CHILDREN};
ghost use Rattle.format.specs.Reading.{start, run_at, keep, after_last};
ghost use Rattle.sounding.specs.Inner.{walk_of, taken, run_of, Standing, Follows, Stopped};

use crate::{Cursor, Sounding};
use numbers::number_at;
use paper::Refusal;
use tree::HIGHEST;

// A run that was read: its level, its count and the offset of what follows it.
#[derive(Clone, Copy)]
pub(crate) struct Run {
    pub(crate) level: u8,
    pub(crate) count: u32,
    pub(crate) next: usize,
}

// How far the runs of a file were read: how many leaves they have, the level of the last, where it ends, and the offset of what follows. Before
// the first run the level is above every level: a number and no Option, since the definition's walk has it so, and one test serves every run.
#[derive(Clone, Copy)]
pub(crate) struct Walk {
    pub(crate) leaves: u64,
    pub(crate) before: u8,
    pub(crate) come: Cursor,
    pub(crate) next: usize,
}

impl Walk {
    // Before the first run, at an offset.
    pub(crate) fn start(at: usize) -> Walk
        ensures { walk_of 0 result ≡ start CHILDREN HIGHEST at }
    {
        Walk {
            leaves: 0,
            before: HIGHEST + 1,
            come: Cursor { root: 0, cell: 0 },
            next: at,
        }
    }

    // The run that follows, in a file of k roots. Refused: 1 and 21 at its level, 21 and 15 at its count, then 12; 19 and 20 at either number.
    pub(crate) fn run_at(self, k: u16, bytes: &[u8]) -> Result<Run, Refusal>
        requires { Standing (walk_of 0 self) }
        ensures { run_of result ≡ run_at CHILDREN HIGHEST bytes.now k (walk_of 0 self) }
    {
        let place = self.next as u64;
        let level = number_at(bytes, self.next)?;
        if u32::from(HIGHEST) < level.value {
            return Err(Refusal::LevelTooHigh(place));
        }
        if u32::from(self.before) == level.value {
            return Err(Refusal::UnfitRuns(place));
        }
        let counted = level.next as u64;
        let count = number_at(bytes, level.next)?;
        if count.value == 0 {
            return Err(Refusal::UnfitRuns(counted));
        }
        if leaves::LIMIT as u64 - self.leaves < u64::from(count.value) {
            return Err(Refusal::TooManyLeaves(counted));
        }
        let run = Run {
            level: level.value as u8,
            count: count.value,
            next: count.next,
        };
        if !self.come.starts(run.level) || !self.come.after(run.level, run.count).within(k) {
            return Err(Refusal::NotCovered(place));
        }
        Ok(run)
    }

    // After a run that follows.
    pub(crate) fn after(self, run: Run) -> Walk
        requires standing { Standing (walk_of 0 self) }
        requires follows { Follows (walk_of 0 self) (taken run) }
        ensures { (m : ℕ) → walk_of (m + 1) result ≡ keep CHILDREN HIGHEST (walk_of m self) (taken run) }
    {
        Walk {
            leaves: self.leaves + u64::from(run.count),
            before: run.level,
            come: self.come.after(run.level, run.count),
            next: run.next,
        }
    }

    // After the last run: 12 where ground is left, 22 where bytes are.
    pub(crate) fn ended(self, k: u16, bytes: &[u8]) -> Result<(), Refusal>
        ensures { outcome_of result ≡ after_last bytes.now k (walk_of 0 self) }
    {
        let place = self.next as u64;
        if self.come.root != u64::from(k) || self.come.cell != 0 {
            return Err(Refusal::NotCovered(place));
        }
        if self.next < bytes.len() {
            return Err(Refusal::BytesLeft(place));
        }
        Ok(())
    }

    // What there is to tell after so many runs.
    pub(crate) fn stopped(self, runs: u32, fault: Result<(), Refusal>) -> Sounding
        ensures { Stopped self runs fault result }
    {
        Sounding {
            runs,
            leaves: self.leaves,
            come: self.come,
            next: self.next,
            fault,
        }
    }
}
