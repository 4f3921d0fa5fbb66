//! The sections of the equaliser.

/// A section of the equaliser: what its input here and at the two frames before (`b0`, `b1`, `b2`)
/// and its output at those two (`a1`, `a2`, taken off) count for. Each coefficient counts as divided
/// by `2 ^ shift`.
#[derive(Clone, Copy, Debug, PartialEq, Eq)]
pub struct Section {
    pub shift: u32,
    pub b0: i32,
    pub b1: i32,
    pub b2: i32,
    pub a1: i32,
    pub a2: i32,
}
