// Families: several elements in lent columns, a column for each field of a shape.
ghost use Rattle.std.specs.Prelude.{◌≡◌, Bool, true, ℕ, ◌<◌};
ghost use Rattle.paper.specs.Outcome.{checks, passed, rows};
ghost use Rattle.paper.specs.Refusals.{outcome_of};
ghost use Rattle.tree.specs.Words;
ghost use Rattle.tree.specs.Calls;

use crate::element::Element;
use paper::Refusal;

pub trait Columns: Copy {
    type Row: Element;

    // Whether the columns are equally long, how many entries the first has, and the elements.
    ghost equal: { Self → Bool };

    ghost count: { Self → ℕ };

    ghost entry: { Self → ℕ → Self.Row };

    fn are_equal(self) -> bool
        ensures { result ≡ equal self };

    fn len(self) -> usize
        ensures { result ≡ count self };

    // An element, where the columns are equally long and have it.
    fn row(self, i: usize) -> Self::Row
        requires { (equal self ≡ true) × (i < count self) }
        ensures { result ≡ entry self i };

    // Whether the elements are all children of one parent, in order. Refused: 11, then the checks on each element, at its index.
    final fn family(self) -> Result<bool, Refusal>
        ensures { outcome_of result ≡ Calls.family Self.Row.shape (equal self) (rows (entry self) 0 (count self)) }
    {
        if !self.are_equal() {
            return Err(Refusal::UnfitColumns(0));
        }
        check_all(self)?;
        Ok(are_siblings(self))
    }
}

// The checks on each element in turn.
fn check_all<C: Columns>(columns: C) -> Result<(), Refusal>
    requires { C.equal columns ≡ true }
    ensures { outcome_of result ≡ checks C.Row.shape.fault (rows (C.entry columns) 0 (C.count columns)) }
{
    for i in 0..columns.len() {
        columns.row(i).check(i as u64)?;
    }
    Ok(())
}

// Whether sound elements are a family: as many as a parent has children, and one after the other the children of the first
// one's parent.
fn are_siblings<C: Columns>(columns: C) -> bool
    requires equal { C.equal columns ≡ true }
    requires sound { checks C.Row.shape.fault (rows (C.entry columns) 0 (C.count columns)) ≡ passed }
    ensures { result ≡ Words.family C.Row.shape (rows (C.entry columns) 0 (C.count columns)) }
{
    if columns.len() != C::Row::CHILDREN as usize {
        return false;
    }
    let first = columns.row(0);
    if first.level() == 0 {
        return false;
    }
    let parent = first.up();
    for i in 0..C::Row::CHILDREN {
        if parent.down(i) != columns.row(i as usize) {
            return false;
        }
    }
    true
}
