// A list's three columns, lent together, and one leaf of them.
ghost use Rattle.std.specs.Prelude.{◌≡◌, ◌<◌};
ghost use Rattle.leaves.specs.Leaves.{leaf_at, room, equal_columns};
ghost use Rattle.leaves.specs.Lists.{leaf_of, Even};

use std::marker::Model;

// What stands in one entry of each column.
#[derive(Clone, Copy)]
pub struct Leaf {
    pub root: u16,
    pub level: u8,
    pub position: u64,
}

// The three lent columns of a list, equally long or not. A clause sees what stands in them.
#[derive(Drop)]
pub struct LeafList<'a> {
    pub roots: &'a [u16],
    pub levels: &'a [u8],
    pub positions: &'a [u64],
}

impl<'a> Model for LeafList<'a> {
    ghost use Rattle.leaves.specs.Leaves.{Columns, columns};

    ghost Value = { Columns };

    ghost view = { λ l. columns l.roots.now l.levels.now l.positions.now };
}

impl<'a> LeafList<'a> {
    // How many leaves stand in it.
    #[inline(always)]
    pub fn len(&self) -> usize
        ensures { result ≡ room self.now }
    {
        self.roots.len()
    }

    // Whether the columns are equally long.
    pub fn is_even(&self) -> bool
        ensures { result ≡ equal_columns self.now }
    {
        crate::equal_lengths(self.len(), self.levels.len(), self.positions.len())
    }

    // The leaf of an entry.
    #[inline(always)]
    pub(crate) fn leaf(&self, i: usize) -> Leaf
        requires even { Even self.now }
        requires i_in_bounds { i < room self.now }
        ensures { leaf_of result ≡ leaf_at self.now i }
    {
        let LeafList {
            roots,
            levels,
            positions,
        } = self;
        Leaf {
            root: roots[i],
            level: levels[i],
            position: positions[i],
        }
    }
}
