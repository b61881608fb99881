// The grid file read: where it is sound and the columns have room, its leaves are written.
#![tactic(auto)]

ghost use Rattle.columns.specs.Lent.{held, SameLoans};
ghost use Rattle.reader.specs.Calls.{FileRead};

use columns::LentColumns;
use paper::Refusal;

mod fill;

// A grid that was read: its roots and the number of its leaves.
#[derive(Clone, Copy)]
pub struct Grid {
    pub roots: u16,
    pub leaves: u64,
}

// The leaves of a file, at the front of the columns. Refused: 11 on the columns; then by the first fault in byte order, at its offset; after
// the last run 12 and 22, last 14 with the entries needed.
pub fn read(bytes: &[u8], lent: &mut LentColumns) -> Result<Grid, Refusal>
    ensures loans { SameLoans lent.old lent.new }
    ensures read { FileRead bytes.now result (held lent.old) (held lent.new) }
{
    if !lent.is_even() {
        return Err(Refusal::UnfitColumns(0));
    }
    let head = sounding::head_at(bytes)?;
    // First how far the runs are sound, then, where all of them are, their leaves.
    let sounding = sounding::sound(head, bytes);
    sounding.fault?;
    let grid = Grid {
        roots: head.roots,
        leaves: sounding.leaves,
    };
    if (lent.roots.len() as u64) < grid.leaves {
        return Err(Refusal::NoRoom(grid.leaves));
    }
    fill::columns(head, bytes, lent);
    Ok(grid)
}
