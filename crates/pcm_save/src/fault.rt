//! Why bytes tell no state.

/// What is wrong with bytes that should spell what was kept.
#[derive(Clone, Copy, Debug, PartialEq, Eq)]
pub enum StateFault {
    /// They end too early.
    Short,
    /// A number stands for nothing.
    Unspelled,
    /// The counts of a book, or of several, contradict each other.
    OutOfOrder,
}
