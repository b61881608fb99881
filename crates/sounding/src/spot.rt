// Where a list has come to, against the leaves of a level and the roots that there are.
ghost use Rattle.std.specs.Prelude.{◌≡◌, ◌%◌, ◌≤◌, eqb};
ghost use Rattle.tree.specs.Anchors.{HIGHEST};
ghost use Rattle.leaves.specs.Leaves.{CHILDREN, span};
ghost use Rattle.format.specs.Reading.{upto, end_from};
ghost use Rattle.sounding.specs.Answers.{spot_of};
ghost use Rattle.sounding.specs.Inner.{Proper};

use crate::Cursor;
use leaves::BITS;
use tree::HIGHEST;

impl Cursor {
    // Whether a leaf of a level can start here.
    pub(crate) fn starts(self, level: u8) -> bool
        requires { level ≤ HIGHEST }
        ensures { result ≡ eqb (self.cell % span CHILDREN HIGHEST level) 0 }
    {
        self.cell % (1u64 << (BITS * (HIGHEST - level))) == 0
    }

    // Where so many leaves of a level end that start here: counted in leaves of the level, then whole roots and the leaves after them.
    pub(crate) fn after(self, level: u8, count: u32) -> Cursor
        requires proper { Proper (spot_of self) }
        requires level_le_highest { level ≤ HIGHEST }
        requires starts { self.cell % span CHILDREN HIGHEST level ≡ 0 }
        ensures { spot_of result ≡ end_from CHILDREN HIGHEST (spot_of self) level count }
    {
        let narrow = BITS * (HIGHEST - level);
        let wide = BITS * level;
        let end = (self.cell >> narrow) + u64::from(count);
        Cursor {
            root: self.root + (end >> wide),
            cell: (end % (1u64 << wide)) << narrow,
        }
    }

    // Whether this is not past the last of k roots.
    pub(crate) fn within(self, k: u16) -> bool
        ensures { result ≡ upto k (spot_of self) }
    {
        self.root < u64::from(k) || (self.root == u64::from(k) && self.cell == 0)
    }
}
