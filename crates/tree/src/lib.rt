// What the code of the three shapes shares.
#![tactic(auto)]

ghost use Rattle.std.specs.Prelude.{◌≡◌, if◌then◌else◌};
ghost use Rattle.paper.specs.Outcome.{same};
ghost use Rattle.paper.specs.Refusals.{order_of};
ghost use Rattle.tree.specs.Anchors as anchors;
ghost use Rattle.tree.specs.Anchors.{HIGHEST, off_grid, bit_at, off_edge};
ghost use Rattle.tree.specs.Words.{compared};

use std::cmp::Ordering;

pub mod columns;
pub mod element;

// The highest level of every shape, and the edge of the root: 2^HIGHEST.
pub const HIGHEST: u8 = 21;

pub const EDGE: u32 = 1 << HIGHEST;

// The side of a level.
pub fn side(level: u8) -> u32
    ensures { result ≡ anchors.side HIGHEST level }
{
    if HIGHEST < level {
        return 1;
    }
    1u32 << (HIGHEST - level)
}

// The coordinate of the ancestor of a level: the multiple of its side at or below.
pub fn rounded(level: u8, x: u32) -> u32
    ensures { result ≡ anchors.rounded HIGHEST level x }
{
    if HIGHEST < level {
        return x;
    }
    let s = HIGHEST - level;
    x >> s << s
}

// The anchor bit of a level.
pub fn bit(level: u8, x: u32) -> u32
    ensures { result ≡ bit_at HIGHEST level x }
{
    if HIGHEST < level {
        return x % 2;
    }
    (x >> (HIGHEST - level)) % 2
}

// Whether a coordinate is no anchor of its level: EDGE or more, or no multiple of the side. Rounding is the remainder
// without a division.
pub fn off_grid(level: u8, x: u32) -> bool
    ensures { result ≡ off_grid HIGHEST level x }
{
    if EDGE <= x {
        return true;
    }
    rounded(level, x) != x
}

// A coordinate moved by step - 1 sides of length h, unless that leaves the root's edge.
pub fn moved(x: u32, step: u8, h: u32) -> Option<u32>
    ensures { result ≡ (if off_edge HIGHEST h step x then None else Some (anchors.moved h step x)) }
{
    let far = u64::from(x) + u64::from(step) * u64::from(h);
    // Below 0 it wraps, past every edge: `checked_sub` was a third slower over a line's face.
    let to = far.wrapping_sub(u64::from(h));
    if u64::from(EDGE) <= to {
        return None;
    }
    Some(to as u32)
}

// The order of two elements by where their first descendants of the highest level stand, then by level.
pub fn order(first: u64, level: u8, second: u64, other: u8) -> Ordering
    ensures { order_of result ≡ compared first second (compared level other same) }
{
    first.cmp(&second).then(level.cmp(&other))
}
