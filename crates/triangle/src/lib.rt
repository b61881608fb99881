// Triangles: the ground plan of a prism. The ten calls are those of `tree::element` and `tree::columns`, at this shape; `specs/Elements.antt` says what a
// triangle is.
#![tactic(auto, unfolding(crate::specs::Elements::triangle_to))]

ghost use Rattle.std.specs.Prelude.{◌≡◌, not, length};
ghost use Rattle.triangle.specs.Elements.{triangle, inside_root};
ghost use Rattle.triangle.specs.Columns as lent;
ghost use Rattle.triangle.specs.Lawful.{lawful_triangle, same_triangle, states_triangle};

use paper::Refusal;
use tree::HIGHEST;
use tree::columns::Columns;
use tree::element::Element;

#[repr(C)]
#[derive(Clone, Copy, Debug, PartialEq, Eq)]
pub struct Triangle {
    pub x: u32,
    pub y: u32,
    pub level: u8,
    // The type: `type` is a word of the language. A `u8`, since C hands in any number; 2 and more are refused.
    pub kind: u8,
}

// Whether an anchor lies outside the root, by type.
pub fn outside(kind: u8, x: u32, y: u32) -> bool
    ensures { result ≡ not (inside_root kind x y) }
{
    (x as u64) < y as u64 + (kind != 0) as u64
}

impl Element for Triangle {
    ghost shape = { triangle };

    const BITS: u8 = 2;

    const CHILDREN: u8 = 4;

    const FACES: u8 = 3;

    const CORNERS: u8 = 3;

    ghost BITS = { 2 };

    ghost CHILDREN = { 4 };

    ghost FACES = { 3 };

    ghost CORNERS = { 3 };

    ghost lawful = { lawful_triangle };

    ghost states = { states_triangle };

    ghost same = { same_triangle };

    fn level(self) -> u8 {
        self.level
    }

    // 1, 2, 3, 4
    fn check(self, place: u64) -> Result<(), Refusal> {
        if HIGHEST < self.level {
            return Err(Refusal::LevelTooHigh(place));
        }
        if tree::off_grid(self.level, self.x) {
            return Err(Refusal::OffGrid(place));
        }
        if tree::off_grid(self.level, self.y) {
            return Err(Refusal::OffGrid(place));
        }
        if 1 < self.kind {
            return Err(Refusal::NoType(place));
        }
        if outside(self.kind, self.x, self.y) {
            return Err(Refusal::OutsideRoot(place));
        }
        Ok(())
    }

    // Down from the root, one digit a level, in units of the side.
    fn placed(level: u8, position: u64) -> Triangle {
        let mut x = 0u32;
        let mut y = 0u32;
        let mut kind = 0u8;
        for left in (0..level).rev() {
            let s = rows::child_row(kind, ((position >> (2 * left)) % 4) as u8);
            x = 2 * x + s.x as u32;
            y = 2 * y + s.y as u32;
            kind = s.kind;
        }
        let s = HIGHEST - level;
        Triangle {
            x: x << s,
            y: y << s,
            level,
            kind,
        }
    }

    // Up the ancestors, one digit a level, the lowest first: in units of its side an anchor's last bit is the step's.
    fn rank(self) -> u64 {
        let level = self.level;
        let s = HIGHEST - level;
        let mut x = self.x >> s;
        let mut y = self.y >> s;
        let mut kind = self.kind;
        let mut sum = 0u64;
        for i in 0..level {
            let p = rows::slot_of(x, y, kind);
            sum += (p.number as u64) << (2 * i);
            x /= 2;
            y /= 2;
            kind = p.kind;
        }
        sum
    }

    fn up(self) -> Triangle {
        let level = self.level - 1;
        let p = rows::slot_of(
            tree::bit(self.level, self.x),
            tree::bit(self.level, self.y),
            self.kind,
        );
        Triangle {
            x: tree::rounded(level, self.x),
            y: tree::rounded(level, self.y),
            level,
            kind: p.kind,
        }
    }

    fn down(self, number: u8) -> Triangle {
        let level = self.level + 1;
        let h = tree::side(level);
        let s = rows::child_row(self.kind, number);
        Triangle {
            x: self.x + (s.x as u32) * h,
            y: self.y + (s.y as u32) * h,
            level,
            kind: s.kind,
        }
    }

    // Its fields by their names: for all shapes at once it would be no plainer.
    fn top(self, level: u8) -> Triangle {
        Triangle { level, ..self }
    }

    fn bottom(self, level: u8) -> Triangle {
        let d = tree::side(self.level) - tree::side(level);
        Triangle {
            x: self.x + d,
            y: self.y + d,
            level,
            kind: self.kind,
        }
    }

    fn across(self, face: u8) -> Result<Triangle, Refusal> {
        let h = tree::side(self.level);
        let s = rows::face_row(self.kind, face);
        let Some(x) = tree::moved(self.x, s.x, h) else {
            return Err(Refusal::NoNeighbour(0));
        };
        let Some(y) = tree::moved(self.y, s.y, h) else {
            return Err(Refusal::NoNeighbour(0));
        };
        let kind = s.kind;
        if outside(kind, x, y) {
            return Err(Refusal::NoNeighbour(0));
        }
        Ok(Triangle {
            x,
            y,
            level: self.level,
            kind,
        })
    }
}

// Several triangles in lent columns, a field each, as the C interface lends them.
#[derive(Clone, Copy)]
pub struct Triangles<'a> {
    pub xs: &'a [u32],
    pub ys: &'a [u32],
    pub levels: &'a [u8],
    pub kinds: &'a [u8],
}

impl Columns for Triangles<'_> {
    type Row = Triangle;

    ghost equal = { λ c. lent.equal_columns (lent.columns c.xs.now c.ys.now c.levels.now c.kinds.now) };

    ghost count = { λ c. length c.xs.now };

    ghost entry = { λ c i. lent.element (lent.columns c.xs.now c.ys.now c.levels.now c.kinds.now) i };

    fn are_equal(self) -> bool {
        let n = self.xs.len();
        n == self.ys.len() && n == self.levels.len() && n == self.kinds.len()
    }

    fn len(self) -> usize {
        self.xs.len()
    }

    fn row(self, i: usize) -> Triangle {
        Triangle {
            x: self.xs[i],
            y: self.ys[i],
            level: self.levels[i],
            kind: self.kinds[i],
        }
    }
}
