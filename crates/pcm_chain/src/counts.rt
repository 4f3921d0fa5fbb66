//! How many frames a chain has eaten and given.

ghost use Rattle.std.specs.Prelude.{◌≡◌, ◌<◌, ◌≤◌, ◌+◌, ◌-◌, min};
ghost use Rattle.std.proofs.Props.{props};
ghost use Rattle.pcm_rate.specs.Rates.{IsPeriod, need, can};
ghost use Rattle.pcm_chain.specs.Counts.{allowed_in_all, eats_all, fed_in_all, moved_on_by, AreBounded, Goes, IsNear, InTime, MakeABlock, NeedABlock, AllowABlock, IsProgress, StandOn, StandsFurther};
ghost use Rattle.pcm_chain.specs.declared.staging.TheConstants.{BLOCK_FRAMES};

use crate::staging::BLOCK_FRAMES;
use pcm_feeder::Progress;
use pcm_rate::Rate;

/// Frames eaten out of a ring and frames given, without the whole periods of a rate: as many on both sides as last equally
/// long. So they stay small, however long the stream.
#[derive(Clone, Copy, Debug, PartialEq, Eq)]
pub struct Counts {
    pub eaten: u64,
    pub given: u64,
}

/// The counts of a chain, and the rate of its plan.
#[derive(Clone, Copy)]
pub struct RatedCounts {
    pub rate: Rate,
    pub counts: Counts,
    ghost near: { IsNear rate } by { Prim.hlevel props },
    ghost bounded: { AreBounded rate counts } by { Prim.hlevel props },
}

/// What a block moves, in frames: those that it eats out of a ring, the silence that it eats after them, and those that it
/// gives.
#[derive(Clone, Copy, Debug, PartialEq, Eq)]
pub struct Advance {
    pub eaten: usize,
    pub silent: usize,
    pub given: usize,
}

impl Counts {
    /// The counts of an empty stream.
    pub fn none() -> Counts
        ensures { result ≡ record { eaten = 0; given = 0 } }
    {
        Counts { eaten: 0, given: 0 }
    }
}

impl RatedCounts {
    /// Counts without whole periods, which stand for these: `period` is how many frames and outputs one has.
    pub fn told(rate: Rate, period: (u32, u32), all: Counts) -> RatedCounts
        requires near { IsNear rate }
        requires in_time { InTime rate all }
        requires period { IsPeriod rate period.0 period.1 }
        requires outputs { 0 < period.1 }
        requires within { period.1 ≤ rate.dst }
        ensures rate { result.rate ≡ rate }
        ensures stands { StandsFurther rate all result.counts }
    {
        let (frames, outputs) = (u64::from(period.0), u64::from(period.1));
        let periods = all.given.saturating_sub(1) / outputs;
        let counts = Counts {
            eaten: all.eaten - periods * frames,
            given: all.given - periods * outputs,
        };
        RatedCounts { rate, counts }
    }

    /// How far a converter is that has eaten and given so many.
    pub fn progress(self) -> Progress
        ensures { IsProgress self.rate (fed_in_all self.rate self.counts) self.counts.given result }
    {
        let parts = self.counts.given * u64::from(self.rate.src);
        let dst = u64::from(self.rate.dst);
        Progress {
            phase: (parts % dst) as u32,
            ahead: self.fed() as i64 - (parts / dst) as i64,
        }
    }

    /// How many of `want` outputs make a block: no more than a block's frames are eaten for them.
    pub fn block(self, want: usize) -> usize
        requires { 0 < want }
        ensures wanted { result ≤ want }
        ensures block { MakeABlock self.rate self.counts result }
    {
        let allowed = self.rate.can(self.fed() + BLOCK_FRAMES as u64);
        let more = allowed - u128::from(self.counts.given);
        more.min(want.min(BLOCK_FRAMES) as u128) as usize
    }

    // How many frames went into the stages.
    fn fed(self) -> u64
        ensures { result ≡ fed_in_all self.rate self.counts }
    {
        self.counts
            .eaten
            .max(self.rate.need(self.counts.given) as u64)
    }

    /// What a block of at most `want` outputs moves, where `waiting` frames wait.
    pub fn advance(self, ended: bool, waiting: usize, want: usize) -> Advance
        requires few { want ≤ BLOCK_FRAMES }
        requires reach { NeedABlock self.rate self.counts want }
        ensures goes { Goes self.rate ended self.counts waiting want result }
        ensures block { result.eaten + result.silent ≤ BLOCK_FRAMES }
        ensures given { result.given ≤ want }
        ensures there { result.eaten ≤ waiting }
    {
        let fed = self.fed();
        let needed = self.rate.need(self.counts.given + want as u64) as u64;
        let eaten = needed.saturating_sub(fed).min(waiting as u64);
        let given = self.gives(ended, self.counts.eaten + eaten, want);
        let used = self.rate.need(self.counts.given + given as u64) as u64;
        Advance {
            eaten: eaten as usize,
            silent: used.saturating_sub(fed + eaten) as usize,
            given,
        }
    }

    // How many of `want` more outputs are given, once `frames` frames in all are eaten.
    fn gives(self, ended: bool, frames: u64, want: usize) -> usize
        ensures { result ≡ min want (allowed_in_all ended self.rate frames - self.counts.given) }
    {
        let allowed = if ended {
            self.rate.len(frames)
        } else {
            self.rate.can(frames)
        };
        let more = allowed.saturating_sub(u128::from(self.counts.given));
        more.min(want as u128) as usize
    }

    /// How many of `offered` frames make a block that is eaten whole: the outputs that come of it, and
    /// one more, have room in a block.
    pub fn piece(self, offered: usize) -> usize
        requires some { 0 < offered }
        ensures some { 0 < result }
        ensures offered { result ≤ offered }
        ensures few { result ≤ BLOCK_FRAMES }
        ensures reach { AllowABlock self.rate self.counts result }
    {
        let past = self.rate.need(self.counts.given + BLOCK_FRAMES as u64) as u64;
        let more = past - 1 - self.counts.eaten;
        offered.min(BLOCK_FRAMES).min(more as usize)
    }

    /// What a block of `frames` frames moves that is eaten whole.
    pub fn advance_whole(self, frames: usize) -> Advance
        requires few { frames ≤ BLOCK_FRAMES }
        requires reach { AllowABlock self.rate self.counts frames }
        ensures { result ≡ eats_all self.rate self.counts frames }
    {
        let allowed = self.rate.can(self.counts.eaten + frames as u64);
        Advance {
            eaten: frames,
            silent: 0,
            given: allowed.saturating_sub(u128::from(self.counts.given)) as usize,
        }
    }

    /// The counts after a block, without whole periods: `period` is how many frames and outputs one has.
    pub fn after(self, period: (u32, u32), advance: Advance) -> Counts
        requires in_time { InTime self.rate (moved_on_by self.counts advance) }
        requires few { advance.given ≤ BLOCK_FRAMES }
        requires eaten { advance.eaten ≤ BLOCK_FRAMES }
        requires period { IsPeriod self.rate period.0 period.1 }
        requires outputs { 0 < period.1 }
        requires within { period.1 ≤ self.rate.dst }
        ensures bounded { AreBounded self.rate result }
        ensures stands { StandOn self.rate self.counts advance result }
    {
        let all = Counts {
            eaten: self.counts.eaten + advance.eaten as u64,
            given: self.counts.given + advance.given as u64,
        };
        RatedCounts::told(self.rate, period, all).counts
    }
}
