// The second pass over the runs of a file that is sound: their leaves, stored in three columns run by run.
ghost use Rattle.std.specs.Prelude.{◌≡◌, ◌+◌, length};
ghost use Rattle.tree.specs.Anchors.{HIGHEST};
ghost use Rattle.leaves.specs.Leaves.{CHILDREN, front};
ghost use Rattle.columns.specs.Lent.{held, SameLoans};
ghost use Rattle.columns.specs.Laying.{Room};
ghost use Rattle.format.specs.Reading.{sound};
ghost use Rattle.sounding.specs.Answers.{front_of, spot_of};
ghost use Rattle.reader.specs.Inner.{Running, RunLaid};

use columns::LentColumns;
use leaves::{BITS, Leaf};
use numbers::number_at;
use sounding::{Cursor, Head};
use tree::HIGHEST;

// The leaves of the runs behind a head.
pub(crate) fn columns(head: Head, bytes: &[u8], lent: &mut LentColumns)
    requires runs_sound { (sound CHILDREN HIGHEST bytes.now (front_of head)).walk.runs ≡ head.runs }
    requires room { Room (length (sound CHILDREN HIGHEST bytes.now (front_of head)).leaves) (held lent.old) }
    ensures loans { SameLoans lent.old lent.new }
    ensures filled { held lent.new ≡ front (sound CHILDREN HIGHEST bytes.now (front_of head)).leaves (held lent.old) }
{
    let mut at = head.at;
    let mut come = Cursor { root: 0, cell: 0 };
    let mut size = 0;
    for _run in 0..head.runs {
        let level = number_at(bytes, at).unwrap();
        let count = number_at(bytes, level.next).unwrap();
        come = run(level.value as u8, count.value, come, size, lent);
        size += count.value as usize;
        at = count.next;
    }
}

// The leaves of one run, from entry `at` of each column on, root by root; the answer is where they end.
fn run(level: u8, count: u32, come: Cursor, at: usize, lent: &mut LentColumns) -> Cursor
    requires running { Running level count (spot_of come) }
    requires room { Room (at + count) (held lent.old) }
    ensures loans { SameLoans lent.old lent.new }
    ensures laid { RunLaid level count (spot_of come) at (spot_of result) (held lent.old) (held lent.new) }
{
    let narrow = BITS * (HIGHEST - level);
    let each = 1u64 << (BITS * level);
    let mut root = come.root;
    let mut position = come.cell >> narrow;
    let mut done = 0;
    // Not a range: a step is what is left of a root, or of the run.
    while done < u64::from(count) {
        let many = (each - position).min(u64::from(count) - done);
        let first = Leaf {
            root: root as u16,
            level,
            position,
        };
        columns::lay(at + done as usize, many as usize, first, lent);
        done += many;
        position += many;
        if position == each {
            position = 0;
            root += 1;
        }
    }
    Cursor {
        root,
        cell: position << narrow,
    }
}
