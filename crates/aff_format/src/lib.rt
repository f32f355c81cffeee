// The vocabulary of the AFF format: what opening, reading and writing share, and nothing that knows of a record.
#![tactic(auto)]

pub mod section; // the three sections
pub mod edition; // the layout of each edition
pub mod kind; // the types of a node
pub mod refusal; // the numbers handed back
pub mod limits; // the sizes that the library takes
pub mod bytes; // runs of bytes
pub mod number; // numbers in a file
pub mod element; // one element of a node's data
pub mod subkey; // the rule for a subkey
pub mod path; // the grammar of a path
pub mod entry; // tree entries
pub mod data; // where an entry's data are
pub mod align; // multiples of 8
pub mod recorded; // strings and entries by their places

pub use edition::{Edition, UnknownEdition};
pub use element::{Element, ElementAnswer};
pub use entry::Entry;
pub use kind::{Kind, UnknownKind};
pub use refusal::{Refusal, RefusalCode};
pub use section::Section;
