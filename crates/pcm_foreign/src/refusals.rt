//! The numbers of what a call refuses: each has its one home here.

/// The ring has no room for a write now, or no byte for a read.
pub const AGAIN: i32 = -1;

/// No slot is free, or the channel's state doesn't allow it.
pub const BUSY: i32 = -2;

/// The request is of the other way, or its argument is outside its set.
pub const INVALID: i32 = -3;

/// The descriptor isn't open.
pub const BAD_DESCRIPTOR: i32 = -4;

/// The descriptor is open already.
pub const EXISTS: i32 = -5;

/// Memory ran out.
pub const NO_MEMORY: i32 = -6;

/// An argument is invalid.
pub const WRONG_ARGUMENT: i32 = -7;

/// There is no engine, or one already where one is to be made.
pub const NOT_AN_ENGINE: i32 = -9;

/// The room for the frames of a hand-over is too small.
pub const SHORT_ROOM: i32 = -10;

/// The engine has taken all its steps.
pub const WORN_OUT: i32 = -11;

/// The bytes don't begin as a state of this version.
pub const NOT_A_STATE: i32 = -12;

/// The state is of another device, or of one with other filters or sections.
pub const OTHER_DEVICE: i32 = -13;

/// The state ends too early.
pub const SHORT_STATE: i32 = -14;

/// Bytes follow after the end of the state.
pub const LONG_STATE: i32 = -15;

/// A number of the state stands for nothing.
pub const UNSPELLED: i32 = -16;

/// Counts of the state contradict each other.
pub const OUT_OF_ORDER: i32 = -17;
