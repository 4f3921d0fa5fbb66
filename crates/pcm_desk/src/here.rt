//! Where the mix and the device are.

/// How far the mix is, and how much of it has left the device's ring.
#[derive(Clone, Copy, Debug, PartialEq, Eq)]
pub struct Here {
    /// Frames that were mixed.
    pub mixed: u64,
    /// Frames of the mix that have left the device's ring. It is below 0 until the silence that the ring began with has left it.
    pub passed: i64,
}
