//! How large the scripts are.

/// How many events each script has.
pub const SOAK_EVENTS: usize = 20000;

/// How many bytes its writes take parts of.
pub const INLINE_BYTES: usize = 8192;

/// How many frames its interrupts take at most.
pub const SOAK_FRAMES: u32 = 5117952;

/// How many of its events are drawn.
pub const DRAWN_EVENTS: usize = 19992;
