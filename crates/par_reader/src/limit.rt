//! How much is read.

/// The most tokens that are read: a source has no more bytes.
pub const MOST_TOKENS: usize = 262_144;

/// The deepest nesting that a token may have.
pub const DEEPEST: u32 = 64;
