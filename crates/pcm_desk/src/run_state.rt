//! The states of a channel whose run neither waits for bytes nor drains.

/// The state of a channel that records, or of a mapped one.
#[derive(Clone, Copy, Debug, PartialEq, Eq)]
pub enum RunState {
    /// No descriptor has it.
    Free,
    /// Open, and not started.
    Setup,
    /// Started: every interrupt brings frames, or takes what stands in the area.
    Running,
}
