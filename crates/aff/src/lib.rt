// The AFF library as its users see it. specs/ states its demands, proofs/ proves them.
#![tactic(auto)]

// Opening an image, and the record of an opened one.
pub use aff_open::{form_for, open, record_left};
pub use aff_reader::{Opened, Reader, Span};

// Answers of an opened image.
pub use aff_listing::Choice;
pub use aff_listing::listing::listing;
pub use aff_nodes::node::{count, element, kind, name, name_bounds, view, view_bounds};
pub use aff_read::paths::{lookup, path};

// Writing a file.
pub use aff_make::make;
pub use aff_write::{Writer, begin, close, put};

// What the calls hand back, and one element of a view that is held.
pub use aff_format::element::decode;
pub use aff_format::{Edition, Element, ElementAnswer, Kind, Refusal};

// The digest of RFC 1321.
pub use aff_md5::md5;
