// What a turn makes, written into lent columns.
ghost use Rattle.std.specs.Prelude.{◌≡◌, ◌+◌, ◌^◌, ◌≤◌, ◌<◌};
ghost use Rattle.columns.specs.Lent.{held, SameLoans};
ghost use Rattle.columns.specs.Laying.{stretch, stored, Room};
ghost use Rattle.adaption.specs.Inner.{turn_of, gain};

use crate::turn::Turn;
use columns::LentColumns;
use leaves::Leaf;

// The leaves that a turn makes, the first of them as given, from entry `at` of each column on. One leaf is stored here: `columns::lay` asks
// first whether it fits, and where all leaves are kept that took a tenth more time, or more.
pub(crate) fn lay(bits: u8, turn: Turn, at: usize, first: Leaf, lent: &mut LentColumns)
    requires bits_bound { bits < 8 }
    requires turn_bound { first.position + gain (2 ^ bits) (turn_of turn) ≤ 18446744073709551615 }
    requires room { Room (at + gain (2 ^ bits) (turn_of turn)) (held lent.old) }
    ensures loans { SameLoans lent.old lent.new }
    ensures laid { held lent.new
        ≡ stored at (stretch first.root first.level first.position (gain (2 ^ bits) (turn_of turn))) (held lent.old) }
{
    match turn {
        Turn::Refine => {
            columns::lay(at, 1usize << bits, first, lent);
        }
        Turn::Keep | Turn::Merge => {
            lent.roots[at] = first.root;
            lent.levels[at] = first.level;
            lent.positions[at] = first.position;
        }
    }
}
