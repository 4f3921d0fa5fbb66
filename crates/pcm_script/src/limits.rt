//! The limit of a text.

/// How many bytes a script's text has at most.
pub const TEXT_BYTES: usize = 67108864;
