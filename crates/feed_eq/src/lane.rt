//! One channel of a section.

ghost use Rattle.std.specs.Prelude.{◌≡◌, ◌<◌, ◌*◌, ◌+ℤ◌, ◌*ℤ◌, length};
ghost use Rattle.pcm_feeder.specs.Limits.{IsSection, IsSectionCoef};
ghost use Rattle.pcm_feeder.specs.Sums.{scaled_down};
ghost use Rattle.feed_eq.specs.Added.{added, IsSumOf};

use pcm_feeder::{Section, product, scaled_down};

/// What the last frames of a channel add to its next sum, and to the one after that. The two stand
/// for the last two inputs and outputs, of which each sum has a share.
#[derive(Clone, Copy)]
pub struct Lane {
    pub next: i64,
    pub later: i64,
    ghost next_bound: { IsSumOf 4 next },
    ghost later_bound: { IsSumOf 2 later },
}

impl Lane {
    ghost use Rattle.feed_eq.specs.Lanes.{IsLaneAt};

    /// A channel after the last two frames of a section's input and of its output.
    pub fn of(
        section: Section,
        input: &[i32],
        output: &[i32],
        channels: usize,
        channel: usize,
    ) -> Lane
        requires section { IsSection section }
        requires below { channel < channels }
        requires input { length input.now ≡ 2 * channels }
        requires output { length output.now ≡ 2 * channels }
        ensures { IsLaneAt section channels input.now output.now 0 channel result }
    {
        let later = added(section.b2, section.a2, input[channel], output[channel]);
        let first = Lane { next: 0, later };
        first.after(
            section,
            input[channels + channel],
            output[channels + channel],
        )
    }

    /// What a section makes of the next sample.
    pub fn next(self, section: Section, sample: i32) -> i32
        requires { IsSection section }
        ensures { result ≡ scaled_down section.shift (section.b0 *ℤ sample +ℤ self.next) }
    {
        scaled_down(section.shift, product(section.b0, sample) + self.next)
    }

    /// The channel one sample on.
    pub fn after(self, section: Section, input: i32, output: i32) -> Lane
        requires { IsSection section }
        ensures next { result.next ≡ (self.later +ℤ added section.b1 section.a1 input output) }
        ensures later { result.later ≡ added section.b2 section.a2 input output }
    {
        Lane {
            next: self.later + added(section.b1, section.a1, input, output),
            later: added(section.b2, section.a2, input, output),
        }
    }
}

// What an input and the output of its frame add to a later sum.
fn added(b: i32, a: i32, input: i32, output: i32) -> i64
    requires b { IsSectionCoef b }
    requires a { IsSectionCoef a }
    ensures value { result ≡ added b a input output }
    ensures bound { IsSumOf 2 result }
{
    product(b, input) - product(a, output)
}
