// From an answer to what goes over the C interface: a refusal's word and the value beside it. `specs/Results.antt` says how.
#![tactic(auto, unfolding(crate::specs::Results::line_result, crate::specs::Results::triangle_result, crate::specs::Results::prism_result, crate::specs::Results::number_result, crate::specs::Results::truth_result, crate::specs::Results::compare_result, crate::specs::Results::pass_result, crate::specs::Results::grid_result, crate::specs::Results::point_result))]

ghost use Rattle.std.specs.Prelude.{◌≡◌};
ghost use Rattle.paper.specs.Outcome.{refused};
ghost use Rattle.paper.specs.Refusals.{outcome_of, ordering_of};
ghost use Rattle.reader.specs.Answers.{grid_of};
ghost use Rattle.results.specs.Results as results;
ghost use Rattle.results.specs.Results.{Told, line_result, triangle_result, prism_result, number_result, truth_result, compare_result, pass_result, grid_result, point_result};

use corners::Point;
use line::Line;
use paper::Refusal;
use prism::Prism;
use reader::Grid;
use std::cmp::Ordering;
use triangle::Triangle;

// The results stay a struct for each value: a function over C has no type parameters.
#[repr(C)]
#[derive(Clone, Copy)]
pub struct LineResult {
    pub refusal: u64,
    pub value: Line,
}

#[repr(C)]
#[derive(Clone, Copy)]
pub struct TriangleResult {
    pub refusal: u64,
    pub value: Triangle,
}

#[repr(C)]
#[derive(Clone, Copy)]
pub struct PrismResult {
    pub refusal: u64,
    pub value: Prism,
}

#[repr(C)]
#[derive(Clone, Copy)]
pub struct NumberResult {
    pub refusal: u64,
    pub value: u64,
}

#[repr(C)]
#[derive(Clone, Copy)]
pub struct CompareResult {
    pub refusal: u64,
    pub value: i32,
}

// A grid that was read: its roots and the number of its leaves.
#[repr(C)]
#[derive(Clone, Copy)]
pub struct GridResult {
    pub refusal: u64,
    pub roots: u64,
    pub leaves: u64,
}

#[repr(C)]
#[derive(Clone, Copy)]
pub struct PointResult {
    pub refusal: u64,
    pub value: Point,
}

// The word, and the value: on a refusal the one that stands for none.
fn told<T: Copy>(a: Result<T, Refusal>, none: T) -> (u64, T)
    ensures { Told none (outcome_of a) result.0 result.1 }
{
    match a {
        Ok(value) => (0, value),
        Err(refusal) => (word(refusal), none),
    }
}

// The word of a refusal.
fn word(refusal: Refusal) -> u64
    ensures { result ≡ results.word (outcome_of {A = Unit {0}} (Err refusal)) }
{
    of_refusal(refusal.number(), refusal.place())
}

// The word of any number, one of the paper's or not, and a place: what a call with no value answers that refuses so. Below, the results of such a
// refusal by every other call.
pub fn of_refusal(number: u8, place: u64) -> u64
    ensures { result ≡ pass_result (refused number place) }
{
    place % 72057594037927936 * 256 + number as u64
}

impl From<Result<Line, Refusal>> for LineResult {
    ghost from_gives = { λ a r. r ≡ line_result (outcome_of a) };

    fn from(a: Result<Line, Refusal>) -> LineResult {
        let (refusal, value) = told(a, Line { x: 0, level: 0 });
        LineResult { refusal, value }
    }
}

impl From<Result<Triangle, Refusal>> for TriangleResult {
    ghost from_gives = { λ a r. r ≡ triangle_result (outcome_of a) };

    fn from(a: Result<Triangle, Refusal>) -> TriangleResult {
        let none = Triangle {
            x: 0,
            y: 0,
            level: 0,
            kind: 0,
        };
        let (refusal, value) = told(a, none);
        TriangleResult { refusal, value }
    }
}

impl From<Result<Prism, Refusal>> for PrismResult {
    ghost from_gives = { λ a r. r ≡ prism_result (outcome_of a) };

    fn from(a: Result<Prism, Refusal>) -> PrismResult {
        let none = Prism {
            x: 0,
            y: 0,
            z: 0,
            level: 0,
            kind: 0,
        };
        let (refusal, value) = told(a, none);
        PrismResult { refusal, value }
    }
}

impl From<Result<u64, Refusal>> for NumberResult {
    ghost from_gives = { λ a r. r ≡ number_result (outcome_of a) };

    fn from(a: Result<u64, Refusal>) -> NumberResult {
        let (refusal, value) = told(a, 0);
        NumberResult { refusal, value }
    }
}

// Yes is 1, no is 0.
impl From<Result<bool, Refusal>> for NumberResult {
    ghost from_gives = { λ a r. r ≡ truth_result (outcome_of a) };

    fn from(a: Result<bool, Refusal>) -> NumberResult {
        let (refusal, yes) = told(a, false);
        NumberResult {
            refusal,
            value: yes as u64,
        }
    }
}

// Less is -1, equal 0, greater 1.
impl From<Result<Ordering, Refusal>> for CompareResult {
    ghost from_gives = { λ a r. r ≡ compare_result (ordering_of a) };

    fn from(a: Result<Ordering, Refusal>) -> CompareResult {
        let (refusal, order) = told(a, Ordering::Equal);
        CompareResult {
            refusal,
            value: order as i32,
        }
    }
}

// Of a call with no value: the word alone.
pub fn of_pass(a: Result<(), Refusal>) -> u64
    ensures { result ≡ pass_result (outcome_of a) }
{
    let (refusal, _none) = told(a, ());
    refusal
}

impl From<Result<Grid, Refusal>> for GridResult {
    ghost from_gives = { λ a r. r ≡ grid_result (grid_of a) };

    fn from(a: Result<Grid, Refusal>) -> GridResult {
        let none = Grid {
            roots: 0,
            leaves: 0,
        };
        let (refusal, grid) = told(a, none);
        GridResult {
            refusal,
            roots: grid.roots as u64,
            leaves: grid.leaves,
        }
    }
}

impl From<Result<Point, Refusal>> for PointResult {
    ghost from_gives = { λ a r. r ≡ point_result (outcome_of a) };

    fn from(a: Result<Point, Refusal>) -> PointResult {
        let none = Point {
            x: 0.0,
            y: 0.0,
            z: 0.0,
        };
        let (refusal, value) = told(a, none);
        PointResult { refusal, value }
    }
}

impl From<(u8, u64)> for LineResult {
    ghost from_gives = { λ a r. r ≡ line_result (refused a.0 a.1) };

    fn from(a: (u8, u64)) -> LineResult {
        LineResult {
            refusal: of_refusal(a.0, a.1),
            value: Line { x: 0, level: 0 },
        }
    }
}

impl From<(u8, u64)> for TriangleResult {
    ghost from_gives = { λ a r. r ≡ triangle_result (refused a.0 a.1) };

    fn from(a: (u8, u64)) -> TriangleResult {
        TriangleResult {
            refusal: of_refusal(a.0, a.1),
            value: Triangle {
                x: 0,
                y: 0,
                level: 0,
                kind: 0,
            },
        }
    }
}

impl From<(u8, u64)> for PrismResult {
    ghost from_gives = { λ a r. r ≡ prism_result (refused a.0 a.1) };

    fn from(a: (u8, u64)) -> PrismResult {
        PrismResult {
            refusal: of_refusal(a.0, a.1),
            value: Prism {
                x: 0,
                y: 0,
                z: 0,
                level: 0,
                kind: 0,
            },
        }
    }
}

impl From<(u8, u64)> for NumberResult {
    ghost from_gives = { λ a r. (r ≡ number_result (refused a.0 a.1)) × (r ≡ truth_result (refused a.0 a.1)) };

    fn from(a: (u8, u64)) -> NumberResult {
        NumberResult {
            refusal: of_refusal(a.0, a.1),
            value: 0,
        }
    }
}

impl From<(u8, u64)> for CompareResult {
    ghost from_gives = { λ a r. r ≡ compare_result (refused a.0 a.1) };

    fn from(a: (u8, u64)) -> CompareResult {
        CompareResult {
            refusal: of_refusal(a.0, a.1),
            value: 0,
        }
    }
}

impl From<(u8, u64)> for GridResult {
    ghost from_gives = { λ a r. r ≡ grid_result (refused a.0 a.1) };

    fn from(a: (u8, u64)) -> GridResult {
        GridResult {
            refusal: of_refusal(a.0, a.1),
            roots: 0,
            leaves: 0,
        }
    }
}

impl From<(u8, u64)> for PointResult {
    ghost from_gives = { λ a r. r ≡ point_result (refused a.0 a.1) };

    fn from(a: (u8, u64)) -> PointResult {
        PointResult {
            refusal: of_refusal(a.0, a.1),
            value: Point {
                x: 0.0,
                y: 0.0,
                z: 0.0,
            },
        }
    }
}
