// The pass over the marks: once to count, once to write. Two walks, for the room is judged between them by what the first has counted, and
// nothing is written before. A `while` in each: a step takes as many leaves as its turn has, one or a family, which no iterator gives.
ghost use Rattle.std.specs.Prelude.{◌≡◌, ◌^◌, ◌<◌, length};
ghost use Rattle.leaves.specs.Leaves.{leaves, front};
ghost use Rattle.columns.specs.Lent.{held, SameLoans};
ghost use Rattle.columns.specs.Laying.{Room};
ghost use Rattle.adaption.specs.Adaption.{adapted};
ghost use Rattle.adaption.specs.Inner.{Ready};

use crate::turn::Turn;
use crate::{run, turn};
use columns::LentColumns;
use leaves::LeafList;

// How many leaves the result has.
pub(crate) fn count(bits: u8, list: &LeafList, marks: &[u8]) -> usize
    requires bits_bound { bits < 8 }
    requires ready { Ready (2 ^ bits) list.now marks.now }
    ensures { result ≡ length (adapted (2 ^ bits) (leaves list.now) marks.now) }
{
    let mut i = 0;
    let mut size = 0;
    while i < list.len() {
        let turn = Turn::at(bits, list, marks, i);
        size += turn.made(bits);
        i += turn.taken(bits);
    }
    size
}

// The result, written at the front of the lent columns.
pub(crate) fn write(bits: u8, list: &LeafList, marks: &[u8], lent: &mut LentColumns)
    requires bits_bound { bits < 8 }
    requires ready { Ready (2 ^ bits) list.now marks.now }
    requires room { Room (length (adapted (2 ^ bits) (leaves list.now) marks.now)) (held lent.old) }
    ensures loans { SameLoans lent.old lent.new }
    ensures written { held lent.new ≡ front (adapted (2 ^ bits) (leaves list.now) marks.now) (held lent.old) }
{
    let mut i = 0;
    let mut size = 0;
    while i < list.len() {
        let turn = Turn::at(bits, list, marks, i);
        let first = turn.first(bits, turn::leaf(list, i));
        run::lay(bits, turn, size, first, lent);
        size += turn.made(bits);
        i += turn.taken(bits);
    }
}
