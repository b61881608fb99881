// What a refused call answers: the error of every call's `Result`. `specs/Refusals.antt` says which number and place each has.
#![tactic(auto)]

ghost use Rattle.std.specs.Prelude.{◌≡◌};
ghost use Rattle.paper.specs.Refusals.{number_of, place_of};

use std::error::Error;
use std::fmt;

// Why a call refuses, in the order of the paper's numbers, each with its place: "place 0 unless stated".
#[derive(Clone, Copy, Debug, PartialEq, Eq)]
pub enum Refusal {
    // 1: level above 21
    LevelTooHigh(u64),
    // 2: anchor 2^21 or more, or no multiple of the side
    OffGrid(u64),
    // 3: type above 1
    NoType(u64),
    // 4: outside the root
    OutsideRoot(u64),
    // 5: position not below children^level
    NoPosition(u64),
    // 6: parent of level 0; descendant level too small
    LevelTooLow(u64),
    // 7: child of level 21, or mark 1 on such a leaf
    TooSmall(u64),
    // 8: child, face or corner number too large
    NumberTooLarge(u64),
    // 9: successor of the last
    LastOne(u64),
    // 10: neighbour outside the root
    NoNeighbour(u64),
    // 11: columns unequal; list empty or too long
    UnfitColumns(u64),
    // 12: list doesn't cover
    NotCovered(u64),
    // 13: mark above 2
    NoMark(u64),
    // 14: no room
    NoRoom(u64),
    // 15: result over 1,048,576 leaves
    TooManyLeaves(u64),
    // 16: weight 0
    NoWeight(u64),
    // 17: roots or shares outside 1 to 4,096
    OutOfRange(u64),
    // 18: first four bytes of a file
    NoTag(u64),
    // 19: file ends inside or before a number
    EndsEarly(u64),
    // 20: number not shortest, or too long
    NotShortest(u64),
    // 21: number of runs; run of 0; level as in the run before
    UnfitRuns(u64),
    // 22: bytes after the last run
    BytesLeft(u64),
    // 23: order field
    UnfitField(u64),
    // 24: root corner outside -512 to 512
    FarCorner(u64),
}

impl Refusal {
    // The paper's number.
    pub fn number(self) -> u8
        ensures { result ≡ number_of self }
    {
        match self {
            Refusal::LevelTooHigh(_) => 1,
            Refusal::OffGrid(_) => 2,
            Refusal::NoType(_) => 3,
            Refusal::OutsideRoot(_) => 4,
            Refusal::NoPosition(_) => 5,
            Refusal::LevelTooLow(_) => 6,
            Refusal::TooSmall(_) => 7,
            Refusal::NumberTooLarge(_) => 8,
            Refusal::LastOne(_) => 9,
            Refusal::NoNeighbour(_) => 10,
            Refusal::UnfitColumns(_) => 11,
            Refusal::NotCovered(_) => 12,
            Refusal::NoMark(_) => 13,
            Refusal::NoRoom(_) => 14,
            Refusal::TooManyLeaves(_) => 15,
            Refusal::NoWeight(_) => 16,
            Refusal::OutOfRange(_) => 17,
            Refusal::NoTag(_) => 18,
            Refusal::EndsEarly(_) => 19,
            Refusal::NotShortest(_) => 20,
            Refusal::UnfitRuns(_) => 21,
            Refusal::BytesLeft(_) => 22,
            Refusal::UnfitField(_) => 23,
            Refusal::FarCorner(_) => 24,
        }
    }

    pub fn place(self) -> u64
        ensures { result ≡ place_of self }
    {
        match self {
            Refusal::LevelTooHigh(place)
            | Refusal::OffGrid(place)
            | Refusal::NoType(place)
            | Refusal::OutsideRoot(place)
            | Refusal::NoPosition(place)
            | Refusal::LevelTooLow(place)
            | Refusal::TooSmall(place)
            | Refusal::NumberTooLarge(place)
            | Refusal::LastOne(place)
            | Refusal::NoNeighbour(place)
            | Refusal::UnfitColumns(place)
            | Refusal::NotCovered(place)
            | Refusal::NoMark(place)
            | Refusal::NoRoom(place)
            | Refusal::TooManyLeaves(place)
            | Refusal::NoWeight(place)
            | Refusal::OutOfRange(place)
            | Refusal::NoTag(place)
            | Refusal::EndsEarly(place)
            | Refusal::NotShortest(place)
            | Refusal::UnfitRuns(place)
            | Refusal::BytesLeft(place)
            | Refusal::UnfitField(place)
            | Refusal::FarCorner(place) => place,
        }
    }
}

impl fmt::Display for Refusal {
    ghost use Rattle.std.specs.Prelude.{Some};
    ghost use Rattle.paper.specs.Refusals.{refusal_text};

    ghost output = { λ r. Some (refusal_text r) };

    fn fmt<W: fmt::Write>(&self, f: &mut fmt::Formatter<W>) -> fmt::Result {
        write!(f, "refused {} place {}", self.number(), self.place())
    }
}

impl Error for Refusal {}
