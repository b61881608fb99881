// The grid file written: the runs of a list as bytes.
#![tactic(auto)]

ghost use Rattle.writer.specs.Calls.{FileWritten};

use leaves::LeafList;
use paper::Refusal;

mod file;
mod number;
mod run;

// The file of a list, at the front of the bytes. Refused: 17, 11, then 1, 5, 12 at each leaf; 14 with the bytes needed.
pub fn write(k: u16, list: &LeafList, bytes: &mut [u8]) -> Result<u64, Refusal>
    ensures { FileWritten k result list.now bytes.old bytes.new }
{
    leaves::check_list(k, list)?;
    let runs = run::count(list.levels);
    let size = 4 + numbers::size(u32::from(k)) + numbers::size(runs.runs) + runs.bytes;
    if bytes.len() < size {
        return Err(Refusal::NoRoom(size as u64));
    }
    file::put_file(k, runs.runs, list.levels, bytes);
    Ok(size as u64)
}
