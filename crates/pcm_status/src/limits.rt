//! How far ahead a question looks.

/// How many frames a wait is looked for: more than six hours at the greatest rate.
pub const FRAMES_MOST: u64 = 4294967295;
