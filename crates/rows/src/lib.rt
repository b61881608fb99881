// Document 01's tables, read by type and child or face, and document 02's rule for the way up, which reads none. Types and numbers beyond a
// table are taken modulo their count, so that each function answers for every input.
#![tactic(auto)]

ghost use Rattle.std.specs.Prelude.{◌≡◌, ◌%◌, ◌<◌, [], slice_index_or};
ghost use Rattle.rows.specs.Rows.{step, child_row, slot_of, face_row, prism_face_row};

// An entry of a triangle's table.
#[derive(Clone, Copy)]
pub struct Step {
    pub x: u8,
    pub y: u8,
    pub kind: u8,
}

// What is worked out from a triangle's bits and its type: its parent's type, and its number among its siblings.
#[derive(Clone, Copy)]
pub struct Slot {
    pub kind: u8,
    pub number: u8,
}

// An entry of the prism's table of faces.
#[derive(Clone, Copy)]
pub struct PrismStep {
    pub x: u8,
    pub y: u8,
    pub z: u8,
    pub kind: u8,
}

// Children by curve number, a row for each type of the parent. An entry's digits: x step, y step, type.
static CHILD: [[u8; 4]; 2] = [
    [0b0_0_0, 0b1_0_0, 0b1_0_1, 0b1_1_0],
    [0b0_0_1, 0b0_1_0, 0b0_1_1, 0b1_1_1],
];

// Face neighbours, a row for each type. An entry's digits: x step, y step, type; of a step 00 is -h, 01 is 0, 10 is +h.
static FACE: [[u8; 3]; 2] = [
    [0b10_01_1, 0b01_01_1, 0b01_00_1],
    [0b01_10_0, 0b01_01_0, 0b00_01_0],
];

// A prism's: faces 0 to 2 are the triangle's, 3 is z-h and 4 is z+h. An entry's digits: x step, y step, z step, type.
static PRISM_FACE: [[u8; 5]; 2] = [
    [
        0b10_01_01_1,
        0b01_01_01_1,
        0b01_00_01_1,
        0b01_01_00_0,
        0b01_01_10_0,
    ],
    [
        0b01_10_01_0,
        0b01_01_01_0,
        0b00_01_01_0,
        0b01_01_00_1,
        0b01_01_10_1,
    ],
];

// An entry: the row of a type, and there a number's, each modulo its count.
fn entry<const N: usize>(table: &[[u8; N]; 2], kind: u8, number: u8) -> u8
    requires { 0 < N }
    ensures { result ≡ slice_index_or (slice_index_or table.now (kind % 2) []) (number % N) 0 }
{
    table[usize::from(kind) % 2][usize::from(number) % N]
}

pub fn child_row(kind: u8, number: u8) -> Step
    ensures { result ≡ child_row (kind % 2) (number % 4) }
{
    let v = entry(&CHILD, kind, number);
    Step {
        x: v / 4,
        y: v / 2 % 2,
        kind: v % 2,
    }
}

// By the last bits of x and y, which are the anchor's at the triangle's level. One test, where the rule as it is said takes two: of one the
// compiler makes selections, of two branches, which are guessed wrong (docs/SPEED.md).
pub fn slot_of(x: u32, y: u32, kind: u8) -> Slot
    ensures { result ≡ slot_of (step (x % 2) (y % 2) (kind % 2)) }
{
    let x_bit = (x % 2) as u8;
    let y_bit = (y % 2) as u8;
    let t = kind % 2;
    if x_bit == y_bit {
        // 0 when neither is set, 3 when both are
        let number = 3 * x_bit;
        return Slot { kind: t, number };
    }
    let number = 1 + t;
    Slot {
        kind: y_bit,
        number,
    }
}

pub fn face_row(kind: u8, face: u8) -> Step
    ensures { result ≡ face_row (kind % 2) (face % 3) }
{
    let v = entry(&FACE, kind, face);
    Step {
        x: v / 8,
        y: v / 2 % 4,
        kind: v % 2,
    }
}

pub fn prism_face_row(kind: u8, face: u8) -> PrismStep
    ensures { result ≡ prism_face_row (kind % 2) (face % 5) }
{
    let v = entry(&PRISM_FACE, kind, face);
    PrismStep {
        x: v / 32,
        y: v / 8 % 4,
        z: v / 2 % 4,
        kind: v % 2,
    }
}
