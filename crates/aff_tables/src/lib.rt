// The tables of a file, over the bytes of their sections: the symbol table (25 to 27), the tree table (9), and what is asked of the nodes (10 to 13).
// The two tables ask for sections that lie inside the image. Each pass reports the first fault in document 01's order.
#![tactic(auto)]

mod counts; // record counts
pub mod symbols; // the symbol table
pub mod placed; // strings by their places
mod distinct; // equal strings, and equal siblings
pub mod tree; // the tree table
mod links; // parents, strings and names of the nodes
pub mod climb; // climbs by parents
mod data; // the data of the nodes
pub mod nodes; // what is asked of the nodes
