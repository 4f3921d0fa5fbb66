//! What a stage is fitted to, and what a feed is given and returns.

ghost use Rattle.std.specs.Prelude.{◌≡◌};

use pcm_format::Layout;

/// What a stage is fitted to. Rates are in frames per second.
#[derive(Clone, Copy, Debug, PartialEq, Eq)]
pub enum Spec {
    /// From one layout to another.
    Matrix {
        from: Layout,
        to: Layout,
    },
    /// From one rate to another by the last input frame.
    Hold {
        src: u32,
        dst: u32,
        channels: usize,
    },
    /// From one rate to another by the line between two input frames.
    Linear {
        src: u32,
        dst: u32,
        channels: usize,
    },
    /// From one rate to another by a filter: the table at this place, which has these taps.
    Poly {
        src: u32,
        dst: u32,
        channels: usize,
        table: usize,
        taps: usize,
    },
    /// The gain, on frames of this layout.
    Volume {
        layout: Layout,
    },
    /// To samples of this many bits.
    Depth {
        bits: u32,
        channels: usize,
    },
    /// Through this many sections: those of the tables.
    Eq {
        channels: usize,
        sections: usize,
    },
}

impl Default for Spec {
    /// The stage that changes nothing.
    fn default() -> Self
        ensures { result ≡ Spec.Depth 32 1 }
    {
        Spec::Depth {
            bits: 32,
            channels: 1,
        }
    }
}

/// The factors of the left and the right side, where 65536 is one.
#[derive(Clone, Copy, Debug, PartialEq, Eq)]
pub struct Gain {
    pub left: u32,
    pub right: u32,
}

/// A gain of one on both sides.
pub const UNITY: Gain = Gain {
    left: 65536,
    right: 65536,
};

/// What is wanted of a stage at once: at most `want` frames, at a gain.
#[derive(Clone, Copy)]
pub struct Pull {
    pub gain: Gain,
    pub want: usize,
}

/// How far a stage is: its next output lies `phase` parts of its target rate past the input frame under it, and from that frame on it
/// has eaten `ahead` frames, which is below 0 where that frame is still to come.
#[derive(Clone, Copy, Debug, PartialEq, Eq)]
pub struct Progress {
    pub phase: u32,
    pub ahead: i64,
}

/// The progress of a stage at the begin of its stream, and of one without a change of rate at any time.
pub const AT_REST: Progress = Progress { phase: 0, ahead: 0 };

/// How many frames a feed took from its input, and how many it gave.
#[derive(Clone, Copy, Debug, PartialEq, Eq)]
pub struct Moved {
    pub eaten: usize,
    pub given: usize,
}
