// The calls of the grid file.
ghost use Rattle.leaves.specs.Leaves.{columns};
ghost use Rattle.interface.specs.Calls.{WriteResult, ReadResult};

use columns::LentColumns;
use leaves::LeafList;
use results::{GridResult, NumberResult};

// The file of a list of k roots, at the front of the bytes.
#[unsafe(no_mangle)]
pub extern "C" fn gw_file_write(
    k: u16,
    roots: &[u16],
    levels: &[u8],
    positions: &[u64],
    bytes: &mut [u8],
) -> NumberResult
    ensures { WriteResult k result (columns roots.now levels.now positions.now)
        bytes.old bytes.new }
{
    let list = LeafList {
        roots,
        levels,
        positions,
    };
    writer::write(k, &list, bytes).into()
}

// The leaves of a file, at the front of the columns.
#[unsafe(no_mangle)]
pub extern "C" fn gw_file_read(
    bytes: &[u8],
    roots: &mut [u16],
    levels: &mut [u8],
    positions: &mut [u64],
) -> GridResult
    ensures { ReadResult result bytes.now
        (columns roots.old levels.old positions.old)
        (columns roots.new levels.new positions.new) }
{
    let mut lent = LentColumns {
        roots,
        levels,
        positions,
    };
    reader::read(bytes, &mut lent).into()
}
