// Answers about one node of an opened image: name, kind, count, data, element. A user's call takes the record with the image and both areas as they were
// passed to `open`, and first judges whether the record belongs to them (24); then it answers from the bytes in these buffers as they are at the call. The
// functions that take a `Belonging`, which docs/PROOFS.md lists, do not judge the record again: their callers in the library have.
#![tactic(auto)]

pub mod node; // name, kind, count and data of a node
