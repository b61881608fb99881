// Three columns lent for a list to be written into.
ghost use Rattle.std.specs.Prelude.{◌≡◌};
ghost use Rattle.leaves.specs.Leaves.{equal_columns};
ghost use Rattle.columns.specs.Lent.{held};

use leaves::LeafList;

// Equally long or not, whatever stands in them.
#[derive(Drop)]
pub struct LentColumns<'a> {
    pub roots: &'a mut [u16],
    pub levels: &'a mut [u8],
    pub positions: &'a mut [u64],
}

impl<'a> LentColumns<'a> {
    // Whether the columns are equally long.
    pub fn is_even(&self) -> bool
        ensures { result ≡ equal_columns (held self.now) }
    {
        leaves::equal_lengths(self.roots.len(), self.levels.len(), self.positions.len())
    }
    // The list that stands in them.
    pub fn list(&self) -> LeafList<'_>
        ensures { result ≡ held self.now }
    {
        LeafList {
            roots: self.roots,
            levels: self.levels,
            positions: self.positions,
        }
    }
}
