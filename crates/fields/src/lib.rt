// The fields of a line: where each begins and ends, and the number in one. Every function answers for every input.
#![tactic(auto)]

pub mod cut;
pub mod digits;
