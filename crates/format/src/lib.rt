// The bytes that a grid file opens with. The format itself is in specs/ and its laws in proofs/.
#![tactic(auto)]

// "The file opens with the four bytes 50 47 52 31".
pub const TAG: [u8; 4] = *b"PGR1";
