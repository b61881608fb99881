// The leaves of a uniform start, written from the front, column by column.
ghost use Rattle.std.specs.Prelude.{◌≡◌, ◌*◌, ◌/◌, ◌%◌, ◌^◌, ◌≤◌, ◌<◌, length};
ghost use Rattle.paper.specs.Outcome.{rows};
ghost use Rattle.paper.specs.Memory.{written};
ghost use Rattle.leaves.specs.Calls.{limit};
ghost use Rattle.columns.specs.Lent.{held, SameLoans};
ghost use Rattle.columns.specs.Laying.{Room};
ghost use Rattle.columns.specs.Inner.{Filled};

use crate::{LentColumns, stretch};

// The leaves of k roots with 2^bits leaves each, all of one level.
pub(crate) fn fill(k: u16, bits: u8, level: u8, lent: &mut LentColumns)
    requires bits_bound { bits < 64 }
    requires count_bound { k * 2 ^ bits ≤ limit }
    requires room { Room (k * 2 ^ bits) (held lent.old) }
    ensures loans { SameLoans lent.old lent.new }
    ensures filled { Filled bits level (k * 2 ^ bits) (held lent.old) (held lent.new) }
{
    let count = (k as usize) << bits;
    fill_roots(bits, k, lent.roots);
    // Written from 0 on: the proof doesn't follow `[..count]` of a field.
    stretch::put(level, &mut lent.levels[0..count]);
    fill_positions(bits, &mut lent.positions[0..count]);
}

// Each root's number for each of its leaves.
fn fill_roots(bits: u8, k: u16, roots: &mut [u16])
    requires { (bits < 64) × ((k * 2 ^ bits ≤ limit) × (k * 2 ^ bits ≤ length roots.old)) }
    ensures { roots.new ≡ written (rows (λ i. i / 2 ^ bits) 0 (k * 2 ^ bits)) roots.old }
{
    let each = 1usize << bits;
    for r in 0..k {
        let at = (r as usize) << bits;
        stretch::put(r, &mut roots[at..at + each]);
    }
}

// In each root the positions from 0 on.
fn fill_positions(bits: u8, positions: &mut [u64])
    requires { bits < 64 }
    ensures { positions.new ≡ rows (λ i. i % 2 ^ bits) 0 (length positions.old) }
{
    let each = 1usize << bits;
    for (leaf, position) in positions.iter_mut().enumerate() {
        *position = (leaf % each) as u64;
    }
}
