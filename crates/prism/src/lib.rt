// Prisms: a triangle times a line. The ten calls are those of `tree::element` and `tree::columns`, at this shape, and what they do has the triangle's part and
// the line's, which is z, in one, for speed (docs/DECISIONS.md, "A prism's steps are in one piece in the code"); `specs/Elements.antt` says what a prism is.
#![tactic(auto, unfolding(crate::specs::Elements::prism_to))]

ghost use Rattle.std.specs.Prelude.{length};
ghost use Rattle.prism.specs.Elements.{prism};
ghost use Rattle.prism.specs.Columns as lent;
ghost use Rattle.prism.specs.Lawful.{lawful_prism, same_prism, states_prism};

use paper::Refusal;
use tree::HIGHEST;
use tree::columns::Columns;
use tree::element::Element;

#[repr(C)]
#[derive(Clone, Copy, Debug, PartialEq, Eq)]
pub struct Prism {
    pub x: u32,
    pub y: u32,
    pub z: u32,
    pub level: u8,
    // The type: `type` is a word of the language. A `u8`, since C hands in any number; 2 and more are refused.
    pub kind: u8,
}

impl Element for Prism {
    ghost shape = { prism };

    const BITS: u8 = 3;

    const CHILDREN: u8 = 8;

    const FACES: u8 = 5;

    const CORNERS: u8 = 6;

    ghost BITS = { 3 };

    ghost CHILDREN = { 8 };

    ghost FACES = { 5 };

    ghost CORNERS = { 6 };

    ghost lawful = { lawful_prism };

    ghost states = { states_prism };

    ghost same = { same_prism };

    fn level(self) -> u8 {
        self.level
    }

    // 1, 2, 3, 4
    fn check(self, place: u64) -> Result<(), Refusal> {
        if HIGHEST < self.level {
            return Err(Refusal::LevelTooHigh(place));
        }
        if tree::off_grid(self.level, self.x) {
            return Err(Refusal::OffGrid(place));
        }
        if tree::off_grid(self.level, self.y) {
            return Err(Refusal::OffGrid(place));
        }
        if tree::off_grid(self.level, self.z) {
            return Err(Refusal::OffGrid(place));
        }
        if 1 < self.kind {
            return Err(Refusal::NoType(place));
        }
        if triangle::outside(self.kind, self.x, self.y) {
            return Err(Refusal::OutsideRoot(place));
        }
        Ok(())
    }

    // Down from the root, one digit a level, in units of the side.
    fn placed(level: u8, position: u64) -> Prism {
        let mut x = 0u32;
        let mut y = 0u32;
        let mut z = 0u32;
        let mut kind = 0u8;
        for left in (0..level).rev() {
            let d = ((position >> (3 * left)) % 8) as u8;
            let s = rows::child_row(kind, d % 4);
            x = 2 * x + s.x as u32;
            y = 2 * y + s.y as u32;
            z = 2 * z + (d / 4) as u32;
            kind = s.kind;
        }
        let s = HIGHEST - level;
        Prism {
            x: x << s,
            y: y << s,
            z: z << s,
            level,
            kind,
        }
    }

    // Up the ancestors, one digit a level, the lowest first: in units of its side an anchor's last bit is the step's.
    fn rank(self) -> u64 {
        let level = self.level;
        let s = HIGHEST - level;
        let mut x = self.x >> s;
        let mut y = self.y >> s;
        let mut z = self.z >> s;
        let mut kind = self.kind;
        let mut sum = 0u64;
        for i in 0..level {
            let p = rows::slot_of(x, y, kind);
            sum += (4 * (z % 2) as u64 + p.number as u64) << (3 * i);
            x /= 2;
            y /= 2;
            z /= 2;
            kind = p.kind;
        }
        sum
    }

    fn up(self) -> Prism {
        let level = self.level - 1;
        let slot = rows::slot_of(
            tree::bit(self.level, self.x),
            tree::bit(self.level, self.y),
            self.kind,
        );
        Prism {
            x: tree::rounded(level, self.x),
            y: tree::rounded(level, self.y),
            z: tree::rounded(level, self.z),
            level,
            kind: slot.kind,
        }
    }

    // The row is that of the triangle number, which is the child's number modulo 4.
    fn down(self, number: u8) -> Prism {
        let level = self.level + 1;
        let h = tree::side(level);
        let s = rows::child_row(self.kind, number);
        Prism {
            x: self.x + (s.x as u32) * h,
            y: self.y + (s.y as u32) * h,
            z: self.z + (number / 4) as u32 * h,
            level,
            kind: s.kind,
        }
    }

    // Its fields by their names: for all shapes at once it would be no plainer.
    fn top(self, level: u8) -> Prism {
        Prism { level, ..self }
    }

    fn bottom(self, level: u8) -> Prism {
        let d = tree::side(self.level) - tree::side(level);
        Prism {
            x: self.x + d,
            y: self.y + d,
            z: self.z + d,
            level,
            kind: self.kind,
        }
    }

    fn across(self, face: u8) -> Result<Prism, Refusal> {
        let h = tree::side(self.level);
        let s = rows::prism_face_row(self.kind, face);
        let Some(x) = tree::moved(self.x, s.x, h) else {
            return Err(Refusal::NoNeighbour(0));
        };
        let Some(y) = tree::moved(self.y, s.y, h) else {
            return Err(Refusal::NoNeighbour(0));
        };
        let Some(z) = tree::moved(self.z, s.z, h) else {
            return Err(Refusal::NoNeighbour(0));
        };
        let kind = s.kind;
        if triangle::outside(kind, x, y) {
            return Err(Refusal::NoNeighbour(0));
        }
        Ok(Prism {
            x,
            y,
            z,
            level: self.level,
            kind,
        })
    }
}

// Several prisms in lent columns, a field each, as the C interface lends them.
#[derive(Clone, Copy)]
pub struct Prisms<'a> {
    pub xs: &'a [u32],
    pub ys: &'a [u32],
    pub zs: &'a [u32],
    pub levels: &'a [u8],
    pub kinds: &'a [u8],
}

impl Columns for Prisms<'_> {
    type Row = Prism;

    ghost equal = { λ c. lent.equal_columns (lent.columns c.xs.now c.ys.now c.zs.now c.levels.now c.kinds.now) };

    ghost count = { λ c. length c.xs.now };

    ghost entry = { λ c i. lent.element (lent.columns c.xs.now c.ys.now c.zs.now c.levels.now c.kinds.now) i };

    fn are_equal(self) -> bool {
        let n = self.xs.len();
        n == self.ys.len() && n == self.zs.len() && n == self.levels.len() && n == self.kinds.len()
    }

    fn len(self) -> usize {
        self.xs.len()
    }

    fn row(self, i: usize) -> Prism {
        Prism {
            x: self.xs[i],
            y: self.ys[i],
            z: self.zs[i],
            level: self.levels[i],
            kind: self.kinds[i],
        }
    }
}
