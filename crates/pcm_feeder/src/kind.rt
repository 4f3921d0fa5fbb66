//! The kinds of stages.

/// What a stage does.
#[derive(Clone, Copy, Debug, PartialEq, Eq)]
pub enum Kind {
    /// Takes frames from one layout to another.
    Matrix,
    /// Changes the rate: each output is the last input frame.
    Hold,
    /// Changes the rate: each output lies on the line between two input frames.
    Linear,
    /// Changes the rate by a filter of several taps, one row of them for each phase.
    Poly,
    /// Multiplies by the gain.
    Volume,
    /// Takes samples of 32 bits to fewer bits.
    Depth,
    /// Equalises by sections of two poles and two zeros, one after another.
    Eq,
}
