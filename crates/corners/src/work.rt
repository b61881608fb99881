// What the calls do: the last test, the corner within the root, and one coordinate at a time. Each function asks for just what
// the tests before it have shown.
ghost use Rattle.std.specs.Prelude.{◌≡◌, true, ◌^◌, ◌<◌, ◌≤◌, nat_abs};
ghost use Rattle.tree.specs.Anchors.{HIGHEST, EDGE};
ghost use Rattle.tree.specs.Laws.{Sound};
ghost use Rattle.triangle.specs.Elements as triangles;
ghost use Rattle.prism.specs.Elements.{CORNERS, prism};
ghost use Rattle.prism.specs.Points as prisms;
ghost use Rattle.corners.specs.CornerPoints.{within, corner_within, root_within, q, coordinate, point_at};
ghost use Rattle.corners.specs.Inner.{along, Near, AxisOf, Heights, mix, blend, CornerRow, corner_of};

use crate::local::Local;
use crate::{Corner, Point, Root};
use prism::Prism;
use tree::element::Element;
use triangle::Triangle;

// One coordinate of a root's six corners. Six fields, and no array, as in `Root`: the paper names them, and no index is to prove in range.
#[derive(Clone, Copy)]
pub(crate) struct Axis {
    pub v0: i64,
    pub v1: i64,
    pub v2: i64,
    pub v3: i64,
    pub v4: i64,
    pub v5: i64,
}

fn within(v: i64) -> bool
    ensures { result ≡ within v }
{
    (-512..=512).contains(&v)
}

impl Corner {
    // The three numbers are from -512 to 512.
    fn within(self) -> bool
        ensures { result ≡ corner_within self }
    {
        within(self.x) && within(self.y) && within(self.z)
    }
}

impl Root {
    // All eighteen numbers are from -512 to 512.
    pub(crate) fn within(self) -> bool
        ensures { result ≡ root_within self }
    {
        self.v0.within()
            && self.v1.within()
            && self.v2.within()
            && self.v3.within()
            && self.v4.within()
            && self.v5.within()
    }

    // One coordinate of the six corners.
    fn axis<F: Fn(Corner) -> i64>(self, coordinate: F) -> Axis
        requires { F.IsAlwaysCallable coordinate }
        ensures { AxisOf (F.post coordinate) self result }
    {
        Axis {
            v0: coordinate(self.v0),
            v1: coordinate(self.v1),
            v2: coordinate(self.v2),
            v3: coordinate(self.v3),
            v4: coordinate(self.v4),
            v5: coordinate(self.v5),
        }
    }
}

// The corners of a triangle, a row for each type. An entry's digits: sides along x, sides along y from the anchor. A table, since a
// branch would wait for the type, which is known last.
const CORNER: [[u8; 3]; 2] = [[0b0_0, 0b1_0, 0b1_1], [0b0_0, 0b0_1, 0b1_1]];

pub(crate) fn sides(kind: u8, number: u8) -> u8
    requires { (kind < 2) × (number < triangles.CORNERS) }
    ensures { CornerRow kind number result }
{
    CORNER[kind as usize][number as usize]
}

// A corner of an element: that of its triangle, 0 to 2 at z, 3 to 5 at z + h.
pub(crate) fn local_of(e: Prism, corner: u8) -> Local
    requires { (Sound prism e) × (corner < CORNERS) }
    ensures { corner_of result ≡ prisms.corner HIGHEST e corner }
{
    let h = tree::side(e.level);
    let s = u32::from(sides(e.kind, corner % Triangle::CORNERS));
    let x = e.x + s / 2 * h;
    let y = e.y + s % 2 * h;
    let z = e.z + u32::from(corner / Triangle::CORNERS) * h;
    Local { x, y, z }
}

// The edge, among signed numbers.
const SCALE: i64 = tree::EDGE as i64;

// Tj: one coordinate at a height, on an edge that goes up from one corner to another.
fn raised(low: i64, high: i64, z: u32) -> i64
    requires { (nat_abs low ≤ 512) × ((nat_abs high ≤ 512) × (z ≤ EDGE)) }
    ensures { result ≡ mix low high z }
{
    SCALE * low + (high - low) * i64::from(z)
}

// Q, from the three at the height.
fn blended(t0: i64, t1: i64, t2: i64, x: u32, y: u32) -> i64
    requires { Heights t0 t1 t2 × ((y ≤ x) × (x ≤ EDGE)) }
    ensures { result ≡ blend t0 t1 t2 x y }
{
    SCALE * t0 + (t1 - t0) * i64::from(x) + (t2 - t1) * i64::from(y)
}

impl Axis {
    // Q at a corner.
    fn scaled(self, p: Local) -> i64
        requires { Near self }
        ensures { result ≡ q (along self) p.x p.y p.z }
    {
        let t0 = raised(self.v0, self.v3, p.z);
        let t1 = raised(self.v1, self.v4, p.z);
        let t2 = raised(self.v2, self.v5, p.z);
        blended(t0, t1, t2, p.x, p.y)
    }

    fn measured(self, p: Local) -> f64
        requires { Near self }
        ensures { result ≡ coordinate (q (along self) p.x p.y p.z) }
    {
        shrunk(self.scaled(p))
    }
}

// Q / 2^42: Q is an f64 without loss, and times 2^-42 it keeps its digits.
fn shrunk(q: i64) -> f64
    requires { nat_abs q ≤ 2 ^ 51 }
    ensures { result ≡ coordinate q }
{
    q as f64 * 0.000000000000227373675443232059478759765625
}

pub(crate) fn placed(root: Root, p: Local) -> Point
    requires { root_within root ≡ true }
    ensures { result ≡ point_at root (corner_of p) }
{
    Point {
        x: root.axis(|v| v.x).measured(p),
        y: root.axis(|v| v.y).measured(p),
        z: root.axis(|v| v.z).measured(p),
    }
}
