//! Two rates, and the counts of frames between them.

ghost use Rattle.std.specs.Prelude.{◌≡◌, ◌<◌};
ghost use Rattle.pcm_rate.specs.Rates.{need, can, len};

use pcm_num::quotient;

/// A change of rate, in frames per second on both sides, and how many frames past the one under an output it looks.
#[derive(Clone, Copy, Debug, PartialEq, Eq)]
pub struct Rate {
    pub src: u32,
    pub dst: u32,
    pub lookahead: u32,
}

/// A frame for each frame.
pub const UNCHANGED: Rate = Rate {
    src: 1,
    dst: 1,
    lookahead: 0,
};

impl Rate {
    /// How many frames of the input the first `outputs` outputs use.
    pub fn need(self, outputs: u64) -> u128
        requires { 0 < self.dst }
        ensures { result ≡ need self outputs }
    {
        if outputs == 0 {
            return 0;
        }
        let parts = u128::from(outputs - 1) * u128::from(self.src);
        quotient(parts, self.dst) + 1 + u128::from(self.lookahead)
    }

    /// How many outputs `frames` frames of the input allow while more may come.
    pub fn can(self, frames: u64) -> u128
        requires { 0 < self.src }
        ensures { result ≡ can self frames }
    {
        self.len(frames.saturating_sub(u64::from(self.lookahead)))
    }

    /// How many outputs last as long as `frames` frames of the input.
    pub fn len(self, frames: u64) -> u128
        requires { 0 < self.src }
        ensures { result ≡ len self frames }
    {
        let parts = u128::from(frames) * u128::from(self.dst);
        quotient(parts + u128::from(self.src - 1), self.src)
    }
}
