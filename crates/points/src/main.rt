// Runs document 01's marked point, every corner of that root, and points with negative numbers, at zero and of flat and folded roots.
// The coordinates are multiples of an eighth, so that three decimals are exact.
#![tactic(auto)]

use corners::{Corner, Point, Root};
use std::io;

fn say_size(rt: &impl Print, x: f64) -> io::Result<()> {
    let eighths = x * 8.0;
    if eighths > -1.0 && eighths < 18446744073709551616.0 {
        let n = std::num::truncating_f64_to_u64(eighths);
        print!(rt; "{}", n / 8)?;
        let rest = n % 8;
        if 0 < rest {
            print!(rt; ".{}", rest * 125)?;
        }
    }
    Ok(())
}

// The sign too, which a zero would show if it had it.
fn say_number(rt: &impl Print, x: f64) -> io::Result<()> {
    print!(rt; " ")?;
    if x < 0.0 {
        print!(rt; "-")?;
        return say_size(rt, -x);
    }
    if 1.0 / x < 0.0 {
        print!(rt; "-")?;
    }
    say_size(rt, x)
}

fn say_point(rt: &impl Print, p: Point) -> io::Result<()> {
    say_number(rt, p.x)?;
    say_number(rt, p.y)?;
    say_number(rt, p.z)?;
    println!(rt;)
}

// The question, then the answer.
fn show(rt: &impl Print, level: u8, position: u64, corner: u8, root: Root) -> io::Result<()> {
    print!(rt; "level {level} position {position} corner {corner}:")?;
    match corners::corner_point(level, position, corner, root) {
        Ok(p) => say_point(rt, p),
        Err(refusal) => println!(rt; " {refusal}"),
    }
}

fn at(x: i64, y: i64, z: i64) -> Corner {
    Corner { x, y, z }
}

// (0,0,0), (100,0,0), (100,100,0) and the same at height 40.
fn marked() -> Root {
    Root {
        v0: at(0, 0, 0),
        v1: at(100, 0, 0),
        v2: at(100, 100, 0),
        v3: at(0, 0, 40),
        v4: at(100, 0, 40),
        v5: at(100, 100, 40),
    }
}

// Below everything: all numbers but a few are negative.
fn sunken() -> Root {
    Root {
        v0: at(-512, -512, -512),
        v1: at(-100, -300, -511),
        v2: at(-1, 1, -7),
        v3: at(-512, -512, 512),
        v4: at(-100, -300, -3),
        v5: at(-1, 1, 0),
    }
}

// From -100 to 100, so that half way is zero.
fn centred() -> Root {
    Root {
        v0: at(-100, 100, -100),
        v1: at(100, -100, 100),
        v2: at(100, -100, 100),
        v3: at(100, -100, 100),
        v4: at(-100, 100, -100),
        v5: at(-100, 100, -100),
    }
}

// Flat: the upper corners are the lower ones. Folded: the upper ones lie below and turned round.
fn flat() -> Root {
    Root {
        v0: at(3, 5, 7),
        v1: at(11, 13, 17),
        v2: at(19, 23, 29),
        v3: at(3, 5, 7),
        v4: at(11, 13, 17),
        v5: at(19, 23, 29),
    }
}

fn folded() -> Root {
    Root {
        v0: at(3, 5, 7),
        v1: at(11, 13, 17),
        v2: at(19, 23, 29),
        v3: at(19, 23, -29),
        v4: at(3, 5, -7),
        v5: at(11, 13, -17),
    }
}

// One number too large.
fn wide() -> Root {
    let mut r = marked();
    r.v5 = at(100, 513, 40);
    r
}

fn main(rt: HostRuntime) -> io::Result<()> {
    println!(rt; "the marked root")?;
    show(&rt, 1, 6, 1, marked())?;
    show(&rt, 0, 0, 0, marked())?;
    show(&rt, 0, 0, 1, marked())?;
    show(&rt, 0, 0, 2, marked())?;
    show(&rt, 0, 0, 3, marked())?;
    show(&rt, 0, 0, 4, marked())?;
    show(&rt, 0, 0, 5, marked())?;
    show(&rt, 21, 9223372036854775807, 5, marked())?;
    println!(rt; "negative numbers")?;
    show(&rt, 0, 0, 1, sunken())?;
    show(&rt, 1, 0, 1, sunken())?;
    show(&rt, 2, 63, 4, sunken())?;
    println!(rt; "zero is +0")?;
    show(&rt, 1, 0, 1, centred())?;
    show(&rt, 1, 0, 3, centred())?;
    println!(rt; "flat and folded")?;
    show(&rt, 2, 17, 4, flat())?;
    show(&rt, 2, 17, 4, folded())?;
    println!(rt; "refused")?;
    show(&rt, 22, 0, 6, wide())?;
    show(&rt, 1, 8, 6, wide())?;
    show(&rt, 1, 7, 6, wide())?;
    show(&rt, 1, 7, 5, wide())
}
