// The record of an opened image, and whether it belongs to the image and the areas that a call is passed with it (24).
#![tactic(auto)]

mod reader; // the record
mod opened; // the record with what is passed with it
mod belonging; // a record that belongs to what is passed with it
mod belongs; // whether it does

pub use belonging::Belonging;
pub use opened::Opened;
pub use reader::{Reader, Span};
