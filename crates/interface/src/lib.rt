// The C interface: one flat function for each public call, since a function over C has no type parameters. What it returns is the result of the call's outcome (`results`), and the lent memory
// is what that outcome leaves; `specs/Calls.antt` has a name for each contract of a call that is lent memory.
#![tactic(auto)]

pub mod file_calls;
pub mod line_calls;
pub mod list_calls;
pub mod order_calls;
pub mod point_calls;
pub mod prism_calls;
pub mod triangle_calls;
