//! The book of a record opening.

use crate::{Opening, RunState};

/// What is counted of an opening that records.
#[derive(Clone, Copy, Debug, PartialEq, Eq)]
pub struct RecordBook {
    pub opening: Opening,
    pub state: RunState,
    /// Frames of the device captured since the start.
    pub captured: u64,
    /// Frames of the client made of them.
    pub given: u64,
    /// Bytes kept of these since the start.
    pub kept: u64,
    /// Bytes read since the start.
    pub read: u64,
    /// Interrupts that brought more frames than there was room for, since they were last answered.
    pub overruns: u32,
}
