// Making a child: the writer's call that stores nothing in the buffer. Like the others it judges first whether the record belongs to buffer and areas (24).
#![tactic(auto)]

pub mod making; // make a child

pub use making::make;
