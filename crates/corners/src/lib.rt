// Corner points: where a corner of an element lies in space, exactly. `specs/CornerPoints.antt` says what the single call answers,
// `specs/Section.antt` the one over a column of positions.
#![tactic(auto)]

ghost use Rattle.std.specs.Prelude.{◌≡◌};
ghost use Rattle.paper.specs.Refusals.{outcome_of};
ghost use Rattle.corners.specs.CornerPoints.{corner_point};
ghost use Rattle.corners.specs.Section.{point_columns, SectionFilled};
ghost use Rattle.corners.specs.Inner.{check_corner};

use paper::Refusal;
use prism::Prism;
use tree::element::Element;

mod child;
mod local;
mod section;
mod work;

// One of a root's six corners. `Point` is alike but for the number; a struct for each, since a function over C takes no generic one.
#[repr(C)]
#[derive(Clone, Copy, Debug, PartialEq, Eq)]
pub struct Corner {
    pub x: i64,
    pub y: i64,
    pub z: i64,
}

// A root: v0 to v2 belong to z = 0, v3 to v5 to z = EDGE, each over the one three before it. In space they may lie anywhere.
// Six fields, and no array: the paper names them v0 to v5, and so do the definitions and laws; an index would have to be proved in range.
#[repr(C)]
#[derive(Clone, Copy, Debug, PartialEq, Eq)]
pub struct Root {
    pub v0: Corner,
    pub v1: Corner,
    pub v2: Corner,
    pub v3: Corner,
    pub v4: Corner,
    pub v5: Corner,
}

#[repr(C)]
#[derive(Clone, Copy, Debug, PartialEq)]
pub struct Point {
    pub x: f64,
    pub y: f64,
    pub z: f64,
}

// The point of a corner of the element of a level at a position. Refused: 1, 5, 8, 24.
pub fn corner_point(level: u8, position: u64, corner: u8, root: Root) -> Result<Point, Refusal>
    ensures { outcome_of result ≡ corner_point level position corner root }
{
    let e = Prism::at(level, position)?;
    check_corner(corner, root)?;
    Ok(work::placed(root, work::local_of(e, corner)))
}

// The points of a corner of the elements of a level at some positions, one coordinate a column. Refused: 11, 1, 5 at the first position
// that the level has not, 8, 24.
pub fn corner_points(
    level: u8,
    positions: &[u64],
    corner: u8,
    root: Root,
    xs: &mut [f64],
    ys: &mut [f64],
    zs: &mut [f64],
) -> Result<(), Refusal>
    ensures { SectionFilled level positions.now corner root result
        (point_columns xs.old ys.old zs.old)
        (point_columns xs.new ys.new zs.new) }
{
    if !section::equal_lengths(positions.len(), xs.len(), ys.len(), zs.len()) {
        return Err(Refusal::UnfitColumns(0));
    }
    positions::check(level, positions)?;
    check_corner(corner, root)?;
    section::fill(level, positions, corner, root, xs, ys, zs);
    Ok(())
}

// The last tests of both calls. Refused: 8, 24.
fn check_corner(corner: u8, root: Root) -> Result<(), Refusal>
    ensures { outcome_of result ≡ check_corner corner root }
{
    if Prism::CORNERS <= corner {
        return Err(Refusal::NumberTooLarge(0));
    }
    if !root.within() {
        return Err(Refusal::FarCorner(0));
    }
    Ok(())
}
