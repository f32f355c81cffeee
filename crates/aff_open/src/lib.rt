// Opening an image.
#![tactic(auto)]

mod header; // the signature and the header sum
mod sections; // the three sections
pub mod tables; // opening up to the tables
mod opening; // opening

pub use header::form_for;
pub use opening::{open, record_left};
