// Where a corner lies within the root, on the scale of its edge.
ghost use Rattle.std.specs.Prelude.{◌≤◌};
ghost use Rattle.tree.specs.Anchors.{EDGE};

// A struct of its own, beside `Corner` and `Point`: its facts bound it within the root.
#[derive(Clone, Copy)]
pub(crate) struct Local {
    pub x: u32,
    pub y: u32,
    pub z: u32,
    ghost ordered: { y ≤ x },
    ghost across: { x ≤ EDGE },
    ghost upwards: { z ≤ EDGE },
}
