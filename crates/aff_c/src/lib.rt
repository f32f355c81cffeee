// The library for programs in C and Rust that link the static library of this crate. include/aff.h declares and documents every function: a slice is
// passed as two arguments, a pointer and a length. The caller sees to it that the pointers are valid for the lengths and that what is written
// overlaps nothing else that is passed. The C interface wants numbers for kinds, editions and refusals (255 where no refusal says it), arrays of numbers for
// records, and a flag for the choice of a listing.
// A C function each, with no generic form: the shared part of two is four lines. Conversions are functions and no From, since neither type is of this crate.
#![tactic(auto)]

pub mod opening; // opening an image
pub mod reading; // lookup, listing, what a node is, elements
pub mod writing; // begin, make, put, close
