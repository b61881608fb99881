// The C interface as a static library: each function of `interface` once more, with its clauses, for C to link. A crate is built for Rattle or for C, not
// for both, so these only call it, and the archive has their names alone.
#![tactic(auto)]

mod file_calls;
mod line_calls;
mod list_calls;
mod order_calls;
mod point_calls;
mod prism_calls;
mod triangle_calls;
