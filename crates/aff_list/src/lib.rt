// What the programs `list` and `listall` print of an image.
#![tactic(auto)]

pub mod line; // a node's line
pub mod refusal_line; // the line `refused N P`
pub mod blocks; // the text, block by block
pub mod output; // from a reader to a writer

pub use output::run;
