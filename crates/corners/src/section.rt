// What the call over a column of positions does: the points, one after the other. An element is a step down from its parent, which is kept:
// positions in order share it, eight of them.
ghost use Rattle.std.specs.Prelude.{◌≡◌, ◌&&◌, ◌^◌, ◌<◌, ◌≤◌, eqb};
ghost use Rattle.tree.specs.Anchors.{HIGHEST};
ghost use Rattle.prism.specs.Elements.{CHILDREN};
ghost use Rattle.corners.specs.Section.{point_columns, points, filled};
ghost use Rattle.corners.specs.Inner.{kept_at, Tested};

use crate::child::Section;
use crate::{Root, work};
use prism::Prism;
use tree::element::Element;

// The parent of the last element, and its position. In level 0 it is the root, which is the element itself.
#[derive(Clone, Copy)]
struct Kept {
    position: u64,
    parent: Prism,
}

// The test of the definition of this name.
pub(crate) fn equal_lengths(positions: usize, xs: usize, ys: usize, zs: usize) -> bool
    ensures { result ≡ (eqb positions xs && (eqb positions ys && eqb positions zs)) }
{
    positions == xs && positions == ys && positions == zs
}

// The points, in the order of their positions. Three columns, as the public call has them: the C interface lends each coordinate's by itself.
pub(crate) fn fill(
    level: u8,
    positions: &[u64],
    corner: u8,
    root: Root,
    xs: &mut [f64],
    ys: &mut [f64],
    zs: &mut [f64],
)
    requires { Tested level positions.now corner root (point_columns xs.old ys.old zs.old) }
    ensures { point_columns xs.new ys.new zs.new
        ≡ filled (points level positions.now corner root)
        (point_columns xs.old ys.old zs.old) }
{
    let section = Section::new(level, corner);
    let upper = level.saturating_sub(1);
    let mut kept = Kept::at(upper, 0);
    for (i, position) in positions.iter().enumerate() {
        kept = kept.next(upper, *position / 8);
        let p = work::placed(root, section.local_at(*position, kept.parent));
        xs[i] = p.x;
        ys[i] = p.y;
        zs[i] = p.z;
    }
}

impl Kept {
    // Down from the root.
    fn at(upper: u8, position: u64) -> Kept
        requires { (upper ≤ HIGHEST) × (position < CHILDREN ^ upper) }
        ensures { result ≡ kept_at upper position }
    {
        Kept {
            position,
            parent: Prism::placed(upper, position),
        }
    }

    // The parent at a position, which the last one may be.
    fn next(self, upper: u8, position: u64) -> Kept
        requires { (upper ≤ HIGHEST) × ((position < CHILDREN ^ upper) × (self ≡ kept_at upper self.position)) }
        ensures { result ≡ kept_at upper position }
    {
        if position == self.position {
            return self;
        }
        Kept::at(upper, position)
    }
}
