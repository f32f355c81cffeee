// Listing order of an opened image, and the call that writes it. As with the other reading calls, the call first judges whether the record belongs to
// image and areas (24); `listing_of`, which takes one that does, does not judge again.
#![tactic(auto)]

pub mod choice; // which nodes a listing has
mod links; // the lowest child and the next sibling of each node
mod children; // the children of each node in number order
pub mod listing; // listing order

pub use choice::Choice;
