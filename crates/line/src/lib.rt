// Lines: the upright part of a prism. The ten calls are those of `tree::element` and `tree::columns`, at this shape; `specs/Elements.antt` says what a
// line is.
#![tactic(auto, unfolding(crate::specs::Elements::line_to))]

ghost use Rattle.std.specs.Prelude.{length};
ghost use Rattle.line.specs.Elements.{line};
ghost use Rattle.line.specs.Columns as lent;
ghost use Rattle.line.specs.Lawful.{lawful_line, same_line, states_line};

use paper::Refusal;
use tree::HIGHEST;
use tree::columns::Columns;
use tree::element::Element;

#[repr(C)]
#[derive(Clone, Copy, Debug, PartialEq, Eq)]
pub struct Line {
    pub x: u32,
    pub level: u8,
}

impl Element for Line {
    ghost shape = { line };

    const BITS: u8 = 1;

    const CHILDREN: u8 = 2;

    const FACES: u8 = 2;

    const CORNERS: u8 = 2;

    ghost BITS = { 1 };

    ghost CHILDREN = { 2 };

    ghost FACES = { 2 };

    ghost CORNERS = { 2 };

    ghost lawful = { lawful_line };

    ghost states = { states_line };

    ghost same = { same_line };

    fn level(self) -> u8 {
        self.level
    }

    // 1, 2
    fn check(self, place: u64) -> Result<(), Refusal> {
        if HIGHEST < self.level {
            return Err(Refusal::LevelTooHigh(place));
        }
        if tree::off_grid(self.level, self.x) {
            return Err(Refusal::OffGrid(place));
        }
        Ok(())
    }

    fn placed(level: u8, position: u64) -> Line {
        Line {
            x: (position as u32) << (HIGHEST - level),
            level,
        }
    }

    fn rank(self) -> u64 {
        (self.x >> (HIGHEST - self.level)) as u64
    }

    fn up(self) -> Line {
        let level = self.level - 1;
        Line {
            x: tree::rounded(level, self.x),
            level,
        }
    }

    fn down(self, number: u8) -> Line {
        let level = self.level + 1;
        Line {
            x: self.x + (number as u32) * tree::side(level),
            level,
        }
    }

    // Its fields by their names: for all shapes at once it would be no plainer.
    fn top(self, level: u8) -> Line {
        Line { x: self.x, level }
    }

    fn bottom(self, level: u8) -> Line {
        Line {
            x: self.x + (tree::side(self.level) - tree::side(level)),
            level,
        }
    }

    fn across(self, face: u8) -> Result<Line, Refusal> {
        let level = self.level;
        let Some(x) = tree::moved(self.x, 2 * face, tree::side(level)) else {
            return Err(Refusal::NoNeighbour(0));
        };
        Ok(Line { x, level })
    }
}

// Several lines in lent columns, a field each, as the C interface lends them.
#[derive(Clone, Copy)]
pub struct Lines<'a> {
    pub xs: &'a [u32],
    pub levels: &'a [u8],
}

impl Columns for Lines<'_> {
    type Row = Line;

    ghost equal = { λ c. lent.equal_columns (lent.columns c.xs.now c.levels.now) };

    ghost count = { λ c. length c.xs.now };

    ghost entry = { λ c i. lent.element (lent.columns c.xs.now c.levels.now) i };

    fn are_equal(self) -> bool {
        self.xs.len() == self.levels.len()
    }

    fn len(self) -> usize {
        self.xs.len()
    }

    fn row(self, i: usize) -> Line {
        Line {
            x: self.xs[i],
            level: self.levels[i],
        }
    }
}
