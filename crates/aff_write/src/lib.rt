// The writer's calls that store bytes in the buffer: begin, put, close. Put and close judge first whether the record belongs to the buffer and the two
// areas passed (24). Each stores at most as many bytes as its allowance; what they have stored is always the front of one list.
#![tactic(auto)]

pub mod beginning; // begin
pub mod putting; // put data
pub mod closing; // close

pub use aff_areas::Writer;
pub use beginning::begin;
pub use closing::close;
pub use putting::put;
