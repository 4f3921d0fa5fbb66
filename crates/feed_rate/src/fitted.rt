//! The counts of a fitted converter, and its walk from output to output.

ghost use Rattle.std.specs.Prelude.{◌≡◌, ◌≤◌, ◌+◌, pos};
ghost use Rattle.pcm_feeder.specs.Fractions.{IsAhead, IsPhase};
ghost use Rattle.pcm_feeder.specs.Limits.{AreChannels, IsRate};
ghost use Rattle.pcm_feeder.specs.Pace.{rate_by, phase_by, ahead_by, factor_of};
ghost use Rattle.feed_rate.specs.Methods.{channels_by};
ghost use Rattle.feed_rate.specs.Walks.{CanWalk, HasWalked, IsFactor};

use crate::{Interpolator, Point};
use pcm_feeder::{Moved, Pace, Progress, Step, Tables};
use pcm_num::Reciprocal;
use pcm_rate::Rate;

/// The counts, how many frames an output uses from the one under it on, and the whole that a phase
/// is a part of.
#[derive(Clone, Copy)]
pub struct Fitted {
    pub pace: Pace,
    used: usize,
    whole: Reciprocal,
    ghost used_is: { used ≡ 1 + (rate_by pace).lookahead },
    ghost whole_is: { whole.divisor ≡ (rate_by pace).dst },
}

impl Fitted {
    /// The begin of a stream.
    pub fn new(rate: Rate) -> Fitted
        requires source { IsRate rate.src }
        requires target { IsRate rate.dst }
        requires lookahead { rate.lookahead ≤ 32 }
        ensures rate { rate_by result.pace ≡ rate }
        ensures phase { phase_by result.pace ≡ 0 }
        ensures ahead { ahead_by result.pace ≡ pos 0 }
    {
        Fitted {
            pace: Pace::new(rate.src, rate.dst, rate.lookahead),
            used: 1 + rate.lookahead as usize,
            whole: Reciprocal::of(rate.dst),
        }
    }

    /// Where a converter is that is this far.
    pub fn resumed(rate: Rate, progress: Progress) -> Fitted
        requires source { IsRate rate.src }
        requires target { IsRate rate.dst }
        requires lookahead { rate.lookahead ≤ 32 }
        requires phase { IsPhase rate progress.phase }
        requires ahead { IsAhead rate progress.ahead }
        ensures rate { rate_by result.pace ≡ rate }
        ensures phase { phase_by result.pace ≡ progress.phase }
        ensures ahead { ahead_by result.pace ≡ progress.ahead }
    {
        let mut fitted = Fitted::new(rate);
        fitted.pace = Pace::resumed(rate.src, rate.dst, rate.lookahead, progress);
        fitted
    }

    /// Puts the next frames at the front of the output, as many as are given, and takes in the frames
    /// eaten. Returns where the output after them lies.
    pub fn put_frames<I: Interpolator>(
        &self,
        interpolator: &mut I,
        tables: &Tables,
        input: &[i32],
        moved: Moved,
        output: &mut [i32],
    ) -> Step
        requires { CanWalk self.now.pace (I.seen interpolator.old) tables.now input.now moved
            output.old }
        ensures { HasWalked self.now.pace (I.seen interpolator.old) (I.seen interpolator.new)
            tables.now input.now moved output.old output.new result }
    {
        let channels = interpolator.channels();
        let factor = self.factor();
        match channels {
            1 => self.walk(interpolator, 1, factor, tables, input, moved, output),
            // From a rate to a part of it each output lies on a frame, and a factor of 0 leaves no phase in the loop.
            2 if self.pace.dst() == 1 => self.walk(
                interpolator,
                2,
                0,
                tables,
                input,
                moved,
                output,
            ),
            2 => self.walk(interpolator, 2, factor, tables, input, moved, output),
            4 => self.walk(interpolator, 4, factor, tables, input, moved, output),
            6 => self.walk(interpolator, 6, factor, tables, input, moved, output),
            8 => self.walk(interpolator, 8, factor, tables, input, moved, output),
            _ => self.walk(interpolator, channels, factor, tables, input, moved, output),
        }
    }

    // The walk over outputs of `channels` channels. Each call has it for itself: where the call names
    // their number, no loop over channels is left in it.
    #[inline(always)]
    fn walk<I: Interpolator>(
        &self,
        interpolator: &mut I,
        channels: usize,
        factor: u32,
        tables: &Tables,
        input: &[i32],
        moved: Moved,
        output: &mut [i32],
    ) -> Step
        requires channels { channels ≡ channels_by (I.seen interpolator.old).method }
        requires limits { AreChannels channels }
        requires factor { IsFactor self.now.pace factor }
        requires walk { CanWalk self.now.pace (I.seen interpolator.old) tables.now input.now moved
            output.old }
        ensures { HasWalked self.now.pace (I.seen interpolator.old) (I.seen interpolator.new)
            tables.now input.now moved output.old output.new result }
    {
        let Fitted { pace, used, whole } = *self;
        let start = pace.place(used);
        let mut step = pace.first();
        for j in 0..moved.given {
            let at = j * channels;
            let point = Point::at(start + step.frames, whole, step.phase * factor);
            let frame = &mut output[at..at + channels];
            interpolator.put_frame(tables, input, point, frame);
            step = pace.after(step);
        }
        interpolator.eat(input, moved.eaten);
        step
    }

    // How many parts of the whole are one part of a step's phase.
    fn factor(&self) -> u32
        ensures { result ≡ factor_of self.now.pace }
    {
        self.whole.divisor() / self.pace.dst()
    }
}
