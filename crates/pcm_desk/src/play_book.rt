//! The book of a play opening.

use crate::Opening;

/// The state of a channel that plays.
#[derive(Clone, Copy, Debug, PartialEq, Eq)]
pub enum PlayState {
    /// No descriptor has it, and it has nothing left to play.
    Free,
    /// Open, with nothing written.
    Setup,
    /// Written to, and not started.
    Primed,
    /// Started: every interrupt takes frames.
    Running,
    /// Started, and nothing more will be written. It may be closed already.
    Draining { closed: bool },
}

/// What is counted of an opening that plays.
#[derive(Clone, Copy, Debug, PartialEq, Eq)]
pub struct PlayBook {
    pub opening: Opening,
    /// The volume that is set.
    pub volume: u32,
    pub state: PlayState,
    /// Bytes accepted in this run.
    pub written: u64,
    /// Frames taken out of the ring in this run.
    pub eaten: u64,
    /// Frames given to the mix in this run.
    pub given: u64,
    /// Bytes of the runs before this one that were played whole, since the opening or its last halt.
    pub done: u64,
    /// Interrupts that found too few frames, since they were last answered.
    pub underruns: u32,
    /// How many frames were mixed with the last frame that the run gave, or where it started.
    pub last: u64,
}
