//! The limits of an engine, and the version of its state.

/// How many frames an engine gives to the device at most, 2 ^ 46: those of 46 years at 48,000 a second. No count grows by anything else: by
/// then fewer than 2 ^ 53 were mixed, and each count of bytes stays below 2 ^ 64, whatever was written, asked or refused.
pub const LIFE: u64 = 70368744177664;

/// The most bytes that play for one frame of the mix: 48 frames of a client, of 32 bytes each.
pub const BYTES_FOR_FRAME: u64 = 1536;

/// The version of the bytes of a state, which is their first number.
pub const STATE_VERSION: u64 = 1;
