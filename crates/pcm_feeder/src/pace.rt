//! The counts of a converter: what a feed eats and gives, and where its outputs lie.

ghost use Rattle.std.specs.Prelude.{◌≡◌, ◌<◌, ◌≤◌, ◌+◌, ◌*◌, ◌^◌, ℕ, pos, neg_ℤ, ◌+ℤ◌, ◌-ℤ◌, ◌≤ℤ◌};
ghost use Rattle.pcm_format.specs.Samples.{natural};
ghost use Rattle.pcm_feeder.specs.Fractions.{IsPaced, IsFraction, IsAhead, IsPhase};

use crate::Progress;
use pcm_num::{quotient, reduce};
use pcm_rate::Rate;

/// Where an output lies: whole frames past the one under the next output, and parts of a frame.
#[derive(Clone, Copy, Debug, PartialEq, Eq)]
pub struct Step {
    pub frames: usize,
    pub phase: u32,
}

/// Two rates, how far the next output lies past the frame under it, and how many frames were eaten
/// from that frame on. Nothing in it grows with the stream.
#[derive(Clone, Copy)]
pub struct Pace {
    rate: Rate,
    // The rate in lowest terms: from one output to the next it is `whole` frames and `part` parts
    // of `dst`, and the phase counts such parts too.
    factor: u32,
    dst: u32,
    whole: usize,
    part: u32,
    phase: u32,
    ahead: i64,
    ghost paced: { IsPaced rate },
    ghost fraction: { IsFraction rate factor dst whole part },
    ghost below: { phase < dst },
    ghost bounds: { IsAhead rate ahead },
}

impl Pace {
    ghost use Rattle.pcm_feeder.specs.Limits.{IsRate};
    ghost use Rattle.pcm_feeder.specs.Pace.{rate_by, phase_by, ahead_by, factor_of, parts_of, IsStep};
    ghost use Rattle.pcm_feeder.specs.Turns.{reach, eaten_by, given_by};

    /// The begin of a stream: nothing was eaten or given.
    pub fn new(src: u32, dst: u32, lookahead: u32) -> Pace
        requires source { IsRate src }
        requires target { IsRate dst }
        requires lookahead { lookahead ≤ 32 }
        ensures rate { rate_by result ≡ record { src = src; dst = dst; lookahead = lookahead } }
        ensures phase { phase_by result ≡ 0 }
        ensures ahead { ahead_by result ≡ pos 0 }
    {
        let (low_src, low_dst) = reduce(src, dst);
        Pace {
            rate: Rate {
                src,
                dst,
                lookahead,
            },
            factor: dst / low_dst,
            dst: low_dst,
            whole: (low_src / low_dst) as usize,
            part: low_src % low_dst,
            phase: 0,
            ahead: 0,
        }
    }

    /// The pace of a converter that is this far.
    pub fn resumed(src: u32, dst: u32, lookahead: u32, progress: Progress) -> Pace
        requires source { IsRate src }
        requires target { IsRate dst }
        requires lookahead { lookahead ≤ 32 }
        requires phase { IsPhase (record { src = src; dst = dst; lookahead = lookahead }) progress.phase }
        requires ahead { IsAhead (record { src = src; dst = dst; lookahead = lookahead }) progress.ahead }
        ensures rate { rate_by result ≡ record { src = src; dst = dst; lookahead = lookahead } }
        ensures phase { phase_by result ≡ progress.phase }
        ensures ahead { ahead_by result ≡ progress.ahead }
    {
        let mut pace = Pace::new(src, dst, lookahead);
        pace.phase = progress.phase / pace.factor;
        pace.ahead = progress.ahead;
        pace
    }

    /// How far the converter is.
    pub fn progress(&self) -> Progress
        ensures phase { result.phase ≡ phase_by self.now }
        ensures ahead { result.ahead ≡ ahead_by self.now }
    {
        Progress {
            phase: self.phase * self.factor,
            ahead: self.ahead,
        }
    }

    /// How many of the frames offered a feed eats: none beyond what the wanted outputs use.
    pub fn eaten(&self, offered: usize, want: usize) -> usize
        ensures value { result
            ≡ eaten_by (rate_by self.now) (phase_by self.now) (ahead_by self.now) offered want }
        ensures within { result ≤ offered }
    {
        if want == 0 {
            return 0;
        }
        let more = less(self.reach(want), self.ahead);
        if more < offered as u128 {
            more as usize
        } else {
            offered
        }
    }

    /// How many frames a feed gives: as many as are wanted and the frames offered allow.
    pub fn given(&self, offered: usize, want: usize) -> usize
        ensures value { result
            ≡ given_by (rate_by self.now) (phase_by self.now) (ahead_by self.now) offered want }
        ensures within { result ≤ want }
    {
        let frames = plus(offered as u128, self.ahead);
        let room = frames.saturating_sub(u128::from(self.rate.lookahead));
        let parts = (room * u128::from(self.rate.dst)).saturating_sub(self.parts());
        let src = self.rate.src;
        let allowed = quotient(parts + u128::from(src - 1), src);
        if allowed < want as u128 {
            allowed as usize
        } else {
            want
        }
    }

    // How many frames, from the one under the next output on, some outputs use.
    fn reach(&self, outputs: usize) -> u128
        requires { 0 < outputs }
        ensures value { result ≡ reach (rate_by self.now) (phase_by self.now) outputs }
        ensures short { result < 2 ^ 100 }
    {
        let parts = self.parts() + (outputs - 1) as u128 * u128::from(self.rate.src);
        quotient(parts, self.rate.dst) + 1 + u128::from(self.rate.lookahead)
    }

    // The phase in parts of the rate as it was given.
    fn parts(&self) -> u128
        ensures value { result ≡ phase_by self.now }
        ensures short { result < 2 ^ 64 }
    {
        u128::from(self.phase) * u128::from(self.factor)
    }

    /// Where the next output lies.
    pub fn first(&self) -> Step
        ensures { IsStep self.now result 0 }
    {
        Step {
            frames: 0,
            phase: self.phase,
        }
    }

    /// Where the output after one lies.
    pub fn after(&self, step: Step) -> Step
        requires below { step.phase < parts_of self.now }
        requires short { step.frames < 2 ^ 62 }
        ensures { (j : ℕ) → IsStep self.now step j → IsStep self.now result (j + 1) }
    {
        let frames = step.frames + self.whole;
        let phase = step.phase + self.part;
        if phase >= self.dst {
            Step {
                frames: frames + 1,
                phase: phase - self.dst,
            }
        } else {
            Step { frames, phase }
        }
    }

    /// The place of the frame under the next output among frames kept of the past and those that
    /// come.
    pub fn place(&self, kept: usize) -> usize
        requires least { 1 + (rate_by self.now).lookahead ≤ kept }
        requires most { kept ≤ 64 }
        ensures { pos result ≡ (pos kept -ℤ ahead_by self.now) }
    {
        (kept as i64 - self.ahead) as usize
    }

    /// How many parts a frame has where a step counts its phase.
    pub fn dst(&self) -> u32
        ensures { result ≡ parts_of self.now }
    {
        self.dst
    }

    /// The pace after `eaten` frames were eaten and the outputs up to a step given.
    pub fn moved(mut self, eaten: usize, step: Step) -> Pace
        requires below { step.phase < parts_of self }
        requires eaten { eaten < 2 ^ 62 }
        requires short { step.frames < 2 ^ 62 }
        requires bounds { IsAhead (rate_by self)
            (ahead_by self +ℤ pos eaten -ℤ pos step.frames) }
        ensures rate { rate_by result ≡ rate_by self }
        ensures phase { phase_by result ≡ step.phase * factor_of self }
        ensures ahead { ahead_by result ≡ (ahead_by self +ℤ pos eaten -ℤ pos step.frames) }
    {
        self.phase = step.phase;
        self.ahead = moved_by(self.ahead, eaten, step.frames);
        self
    }
}

// A distance, with frames eaten and without those passed.
fn moved_by(ahead: i64, eaten: usize, passed: usize) -> i64
    requires least { neg_ℤ (pos (2 ^ 32)) ≤ℤ ahead }
    requires most { ahead ≤ℤ pos (2 ^ 32) }
    requires eaten { eaten < 2 ^ 62 }
    requires passed { passed < 2 ^ 62 }
    ensures { result ≡ (ahead +ℤ pos eaten -ℤ pos passed) }
{
    ahead + (eaten as i64 - passed as i64)
}

// A number less an integer, or 0.
fn less(n: u128, z: i64) -> u128
    requires n { n < 2 ^ 100 }
    ensures { result ≡ natural (pos n -ℤ z) }
{
    if z < 0 {
        n + z.unsigned_abs() as u128
    } else {
        n.saturating_sub(z.unsigned_abs() as u128)
    }
}

// A number and an integer, or 0.
fn plus(n: u128, z: i64) -> u128
    requires n { n < 2 ^ 100 }
    ensures value { result ≡ natural (z +ℤ pos n) }
    ensures short { result < 2 ^ 101 }
{
    if z < 0 {
        n.saturating_sub(z.unsigned_abs() as u128)
    } else {
        n + z.unsigned_abs() as u128
    }
}
