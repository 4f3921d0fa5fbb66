//! The limit of a configuration.

/// How many bytes a configuration's text has at most.
pub const CONFIG_BYTES: usize = 2097152;
