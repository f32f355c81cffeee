// The writer's record and its two areas: byte stores under an allowance, the strings and nodes so far, and whether the record belongs to buffer
// and areas (24). The writer's calls are in the crate above, `aff_write`.
#![tactic(auto)]

pub mod writer; // the record of a file that is being written
pub mod store; // stores under an allowance
pub mod areas; // strings and nodes so far
mod belongs; // whether a record belongs to buffer and areas
pub mod given; // what a call is given
pub mod held; // what a call has that has judged the record
pub mod names; // the strings that are a name

pub use given::Given;
pub use held::Held;
pub use writer::Writer;
