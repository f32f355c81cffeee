// Document 01, 'Layout of a file', 'Sizes'.

// The longest image, in bytes.
pub const IMAGE_LIMIT: usize = 2147483647;

// The most strings, and the numbers in the reader's area of string places.
pub const STRING_LIMIT: usize = 2048;

// The most nodes besides the root, and the numbers in the reader's area of entry places.
pub const NODE_LIMIT: usize = 2048;

// The bytes of the writer's text area and of its tree area.
pub const TEXT_AREA: usize = 32768;

pub const TREE_AREA: usize = 51200;
