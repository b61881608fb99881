// Answers a few questions about prisms, as the geologists put them.
#![tactic(auto)]

use paper::Refusal;
use prism::Prism;
use std::io;
use tree::element::Element;

fn say(rt: &impl Print, a: Result<Prism, Refusal>) -> io::Result<()> {
    match a {
        Ok(e) => println!(rt;
            "level {} anchor {} {} {} type {}",
            e.level, e.x, e.y, e.z, e.kind
        ),
        Err(refusal) => println!(rt; "{refusal}"),
    }
}

fn say_position(rt: &impl Print, a: Result<u64, Refusal>) -> io::Result<()> {
    match a {
        Ok(p) => println!(rt; "position {p}"),
        Err(refusal) => println!(rt; "{refusal}"),
    }
}

fn main(rt: HostRuntime) -> io::Result<()> {
    print!(rt; "element 6 of level 1: ")?;
    say(&rt, Prism::at(1, 6))?;
    let e = Prism {
        x: 1048576,
        y: 0,
        z: 1048576,
        level: 1,
        kind: 1,
    };
    print!(rt; "its child 1: ")?;
    say(&rt, e.child(1))?;
    let child = Prism {
        x: 1048576,
        y: 524288,
        z: 1048576,
        level: 2,
        kind: 0,
    };
    print!(rt; "and that one's position: ")?;
    say_position(&rt, child.position())?;
    print!(rt; "across its face 0: ")?;
    say(&rt, e.neighbour(0))?;
    print!(rt; "across its face 4: ")?;
    say(&rt, e.neighbour(4))?;
    print!(rt; "its last descendant of level 21: ")?;
    say(&rt, e.last_descendant(21))?;
    print!(rt; "element 8 of level 1: ")?;
    say(&rt, Prism::at(1, 8))
}
