// Leaves of one root and level, written into three columns: column by column, so that the machine stores many at a time.
ghost use Rattle.std.specs.Prelude.{◌≡◌, ◌+◌, ◌≤◌, leb, length};
ghost use Rattle.std.proofs.lemmas.List.Edits.{sets};
ghost use Rattle.paper.specs.Outcome.{rows};
ghost use Rattle.columns.specs.Lent.{held, SameLoans};
ghost use Rattle.columns.specs.Laying.{stretch, stored, Room, fitting};

use crate::LentColumns;
use leaves::Leaf;

// Whether so many leaves fit from an entry and a position on.
pub(crate) fn fits(at: usize, count: usize, position: u64, lent: &LentColumns) -> bool
    ensures { result ≡ fitting at count position (held lent.now) }
{
    count as u64 <= u64::MAX - position
        && within(at, count, lent.roots.len())
        && within(at, count, lent.levels.len())
        && within(at, count, lent.positions.len())
}

// Whether so many entries from one on lie within a column.
fn within(at: usize, count: usize, length: usize) -> bool
    ensures { result ≡ leb (at + count) length }
{
    count <= length && at <= length - count
}

// The three columns in turn.
pub(crate) fn write(at: usize, count: usize, first: Leaf, lent: &mut LentColumns)
    requires count_bound { first.position + count ≤ 18446744073709551615 }
    requires room { Room (at + count) (held lent.old) }
    ensures loans { SameLoans lent.old lent.new }
    ensures written { held lent.new ≡ stored at (stretch first.root first.level first.position count) (held lent.old) }
{
    // One, and eight at a time, as many as a family of prisms has: a fixed number takes the machine a few stores.
    if count == 1 {
        lent.roots[at] = first.root;
        lent.levels[at] = first.level;
        lent.positions[at] = first.position;
        return;
    }
    if count == 8 {
        put(first.root, &mut lent.roots[at..at + 8]);
        put(first.level, &mut lent.levels[at..at + 8]);
        count_on(first.position, &mut lent.positions[at..at + 8]);
        return;
    }
    put(first.root, &mut lent.roots[at..at + count]);
    put(first.level, &mut lent.levels[at..at + count]);
    count_on(first.position, &mut lent.positions[at..at + count]);
}

// One value for each entry. `fill` writes the last entry apart from the others, and so takes a stretch of eight longer.
pub(crate) fn put<T: Copy>(value: T, column: &mut [T])
    ensures { column.new ≡ rows (λ t. value) 0 (length column.old) }
{
    for entry in column.iter_mut() {
        *entry = value;
    }
}

// The positions from one on.
fn count_on(first: u64, positions: &mut [u64])
    requires { first + length positions.old ≤ 18446744073709551615 }
    ensures { positions.new ≡ rows (λ t. first + t) 0 (length positions.old) }
{
    for (t, position) in positions.iter_mut().enumerate() {
        *position = first + t as u64;
    }
}
