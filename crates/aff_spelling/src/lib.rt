// How a name is written: as its bytes, or as the listers print it (request C-15).
#![tactic(auto)]

pub mod spelling; // the two spellings, and the passes that measure and write them

pub use spelling::Spelling;
