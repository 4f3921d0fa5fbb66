//! The limits of a run, for definitions and for code: each is defined here alone.

/// How many descriptors there are, from 0 on.
pub const DESCRIPTORS: usize = 64;

/// How many bytes a write has at most.
pub const WRITE_BYTES: usize = 4096;

/// How many bytes a read asks for at most.
pub const READ_BYTES: u32 = 4096;

/// How many events a script has at most.
pub const EVENTS: usize = 1048576;

/// How many bytes all interrupts of a script give to the device at most.
pub const DEVICE_BYTES: u64 = 268435456;

/// The greatest ring of a device, in frames.
pub const RING_FRAMES: u32 = 262144;

/// The frames that an interrupt mixes at most.
pub const MIX_FRAMES: u32 = 262144;
