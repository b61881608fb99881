// The promises: the order's three demands and the paper's starred examples, as the contract of one function.
#![tactic(auto)]

ghost use Rattle.std.specs.Prelude.{◌≡◌};
ghost use Rattle.promises.specs.Promises.{Promises};
ghost use Rattle.promises.specs.Constants.{stated};

use line::Line;
use prism::Prism;
use tree::element::Element;
use triangle::Triangle;

// Does nothing. What it ensures is what is promised, so that the gate fails where a promise is not proved.
pub fn promised()
    ensures { Promises }
{}

// The constants that a shape states.
#[derive(Clone, Copy)]
pub struct Counts {
    pub children: u8,
    pub faces: u8,
    pub corners: u8,
}

#[derive(Clone, Copy)]
pub struct AllCounts {
    pub line: Counts,
    pub triangle: Counts,
    pub prism: Counts,
}

// The constants that the code of the three shapes states, which are those of their definitions; that it is these that are answered is read off the lines
// below.
pub fn constants() -> AllCounts
    ensures { result ≡ stated }
{
    AllCounts {
        line: Counts {
            children: Line::CHILDREN,
            faces: Line::FACES,
            corners: Line::CORNERS,
        },
        triangle: Counts {
            children: Triangle::CHILDREN,
            faces: Triangle::FACES,
            corners: Triangle::CORNERS,
        },
        prism: Counts {
            children: Prism::CHILDREN,
            faces: Prism::FACES,
            corners: Prism::CORNERS,
        },
    }
}
