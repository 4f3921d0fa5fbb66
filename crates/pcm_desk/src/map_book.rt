//! The book of a mapped opening.

use crate::{Opening, RunState};

/// What is counted of a mapped opening.
#[derive(Clone, Copy, Debug, PartialEq, Eq)]
pub struct MapBook {
    pub opening: Opening,
    /// The volume that is set.
    pub volume: u32,
    pub state: RunState,
    /// Frames taken out of the area since the start.
    pub eaten: u64,
    /// Frames given to the mix since the start.
    pub given: u64,
}
