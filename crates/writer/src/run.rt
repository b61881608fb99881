// The runs of a list. A run ends where the level changes and passes over the ends of roots, so that only the levels are read.
ghost use Rattle.std.specs.Prelude.{◌≡◌, true, ◌≤◌, length};
ghost use Rattle.std.specs.List.{position_or_len};
ghost use Rattle.std.specs.Iterator.{YieldsFirstBy, item_count};
ghost use Rattle.leaves.specs.Calls.{limit};
ghost use Rattle.writer.specs.Inner.{OneLevel, Begins, other, Counted};
ghost use Rattle.writer.specs.Runs.{key_count, runs_left};

// A run: its level, and how many leaves it has.
#[derive(Clone, Copy)]
pub(crate) struct Run {
    pub(crate) level: u8,
    pub(crate) count: usize,
}

// The runs of a list, in order, by its levels: what `chunk_by` gives, but found 64 levels at a time.
#[derive(Drop)]
pub(crate) struct Runs<'a>(pub(crate) &'a [u8]);

impl<'a> Iterator for Runs<'a> {
    type Item = Run;

    ghost next_gives = { YieldsFirstBy key_count runs_left };

    ghost remaining = { item_count runs_left };

    // Inlined: a call for each short run would cost.
    #[inline(always)]
    fn next(&mut self) -> Option<Run> {
        let (&level, others) = self.0.split_first()?;
        let same = same_in_front(others, level);
        self.0 = &others[same..];
        Some(Run {
            level,
            count: 1 + same,
        })
    }
}

// The runs of a list: how many they are, and how many bytes their pairs have.
#[derive(Clone, Copy)]
pub(crate) struct Size {
    pub(crate) runs: u32,
    pub(crate) bytes: usize,
}

// The runs of the levels.
pub(crate) fn count(levels: &[u8]) -> Size
    requires { length levels.now ≤ limit }
    ensures { Counted levels.now result.runs result.bytes }
{
    let mut runs = 0;
    let mut bytes = 0;
    for run in Runs(levels) {
        runs += 1;
        bytes += numbers::size(u32::from(run.level)) + numbers::size(run.count as u32);
    }
    Size { runs, bytes }
}

// How many levels in front are the one before them: 64 at a time, then one by one.
fn same_in_front(levels: &[u8], level: u8) -> usize
    ensures within { result ≤ length levels.now }
    ensures same { result ≡ position_or_len (other level) levels.now }
{
    let rest = after_blocks(levels, level);
    let same = rest.iter().position(|l| *l != level).unwrap_or(rest.len());
    levels.len() - rest.len() + same
}

// What is left of the levels after the blocks of 64 that they begin with and that are all of one level.
fn after_blocks(levels: &[u8], level: u8) -> &[u8]
    ensures { Begins level levels.now result.now }
{
    let mut rest = levels;
    // A while, and no iterator over blocks: the answer is what is left, with the block that was not of one level.
    while let Some((block, others)) = rest.split_first_chunk::<64>() {
        if !one_level(block, level) {
            return rest;
        }
        rest = others;
    }
    rest
}

// True only where all levels of a block are the one given: without a way out in between, so that the machine takes many at a time.
fn one_level(block: &[u8; 64], level: u8) -> bool
    ensures { result ≡ true → OneLevel block.now level }
{
    let mut same = true;
    for l in block {
        same &= *l == level;
    }
    same
}
