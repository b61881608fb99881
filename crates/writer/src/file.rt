// A grid file, written at the front of the bytes.
ghost use Rattle.std.specs.Prelude.{◌≡◌, ◌+◌, ◌≤◌, length};
ghost use Rattle.std.proofs.lemmas.List.Edits.{sets};
ghost use Rattle.paper.specs.Memory.{written};
ghost use Rattle.leaves.specs.Calls.{limit};
ghost use Rattle.format.specs.File.{run_bytes, runs_in};
ghost use Rattle.writer.specs.Inner.{level_file};

use crate::number::put;
use crate::run::Runs;
use format::TAG;

// The file of a list of k roots with these levels: the tag, K, R, then the pairs of the runs.
pub(crate) fn put_file(k: u16, runs: u32, levels: &[u8], bytes: &mut [u8])
    requires levels_len_bound { length levels.now ≤ limit }
    requires runs_value { runs ≡ length (runs_in levels.now) }
    requires levels_in_bounds { length (level_file k levels.now) ≤ length bytes.old }
    ensures { bytes.new ≡ written (level_file k levels.now) bytes.old }
{
    bytes[..4].copy_from_slice(&TAG);
    let at = put(u32::from(k), 4, bytes);
    let start = put(runs, at, bytes);
    put_runs(levels, start, bytes);
}

// The pairs of the runs, level and count, stored from an offset on.
fn put_runs(levels: &[u8], start: usize, bytes: &mut [u8])
    requires levels_len_bound { length levels.now ≤ limit }
    requires levels_in_bounds { start + length (run_bytes (runs_in levels.now)) ≤ length bytes.old }
    ensures { bytes.new ≡ sets bytes.old start (run_bytes (runs_in levels.now)) }
{
    let mut at = start;
    for run in Runs(levels) {
        at = put(u32::from(run.level), at, bytes);
        at = put(run.count as u32, at, bytes);
    }
}
