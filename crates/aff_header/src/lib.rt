// The header of a written file: signature, section headers, header sum, in any edition.
#![tactic(auto)]

pub mod header; // each part at its place
