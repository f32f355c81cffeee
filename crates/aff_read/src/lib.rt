// The path of a node of an opened image, and lookup by path. The calls judge the record as those of `aff_nodes` do. specs/Shows.antt says what a file shows
// by all reading calls.
#![tactic(auto)]

pub mod paths; // the path of a node, and lookup by path
