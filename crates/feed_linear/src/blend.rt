//! Points on the line from one frame to the next.

ghost use Rattle.std.specs.Prelude.{◌≡◌, ◌<◌, ◌≤◌, ◌-◌, ◌*◌, ◌^◌, pos, ◌+ℤ◌, ◌-ℤ◌, ◌*ℤ◌, ◌≤ℤ◌, ◌<ℤ◌, neg_ℤ, length};
ghost use Rattle.pcm_num.specs.Floor.{floor_div};
ghost use Rattle.pcm_feeder.specs.Stages.{blended};
ghost use Rattle.feed_linear.specs.Points.{IsPoint};

use pcm_num::Reciprocal;

/// How far a point lies past the frame on the way to the next, in parts of a whole.
#[derive(Clone, Copy)]
pub struct Blend {
    whole: Reciprocal,
    parts: u32,
    ghost within: { parts ≤ whole.divisor },
}

impl Blend {
    /// The point `parts` parts past the frame.
    pub fn at(whole: Reciprocal, parts: u32) -> Blend
        requires { parts ≤ whole.divisor }
        ensures whole { result.whole ≡ whole }
        ensures parts { result.parts ≡ parts }
    {
        Blend { whole, parts }
    }

    /// Writes the frame at the point.
    pub fn put_frame(self, frame: &[i32], next: &[i32], output: &mut [i32])
        requires next { length next.now ≡ length frame.now }
        requires room { length output.old ≡ length frame.now }
        ensures { output.new ≡ blended self.whole.divisor self.parts frame.now next.now }
    {
        for (channel, sample) in frame.iter().enumerate() {
            output[channel] = self.sample(*sample, next[channel]);
        }
    }

    // The sample at the point, rounded down.
    fn sample(self, sample: i32, next: i32) -> i32
        ensures { result ≡ floor_div (sample *ℤ pos (self.whole.divisor - self.parts) +ℤ next *ℤ pos self.parts)
            self.whole.divisor }
    {
        lowered(sample, self.steps(sample, next))
    }

    // How far it lies past the frame's sample, and 2 to the power 32 more.
    fn steps(self, sample: i32, next: i32) -> u64
        ensures { IsPoint sample next self.parts self.whole.divisor result }
    {
        let way = rise(sample, next, self.parts);
        self.whole.quotient(raised(way, self.whole.divisor()))
    }
}

// Some parts of the way from a sample to the next.
fn rise(sample: i32, next: i32, parts: u32) -> i64
    requires { parts < 2 ^ 18 }
    ensures { result ≡ ((next -ℤ sample) *ℤ pos parts) }
{
    times(i64::from(next) - i64::from(sample), parts)
}

// A way between two samples, so many times.
fn times(way: i64, parts: u32) -> i64
    requires least { neg_ℤ (pos (2 ^ 32)) ≤ℤ way }
    requires most { way ≤ℤ pos (2 ^ 32) }
    requires few { parts < 2 ^ 18 }
    ensures { result ≡ (way *ℤ pos parts) }
{
    way * i64::from(parts)
}

// Parts of a whole, as a number from 0 on: there are 2 to the power 32 wholes more of them.
fn raised(parts: i64, whole: u32) -> u64
    requires least { pos 0 ≤ℤ (parts +ℤ pos (2 ^ 32 * whole)) }
    requires most { parts <ℤ pos (2 ^ 32 * whole) }
    requires whole { whole < 2 ^ 18 }
    ensures value { pos result ≡ (parts +ℤ pos (2 ^ 32 * whole)) }
    ensures below { result < 2 ^ 33 * whole }
{
    (parts + i64::from(whole) * (1i64 << 32)) as u64
}

// A sample, and as many steps more as a number lies past 2 to the power 32.
fn lowered(sample: i32, number: u64) -> i32
    requires number { number < 2 ^ 33 }
    requires least { neg_ℤ (pos (2 ^ 31)) ≤ℤ (sample +ℤ pos number -ℤ pos (2 ^ 32)) }
    requires most { (sample +ℤ pos number -ℤ pos (2 ^ 32)) <ℤ pos (2 ^ 31) }
    ensures { result ≡ (sample +ℤ pos number -ℤ pos (2 ^ 32)) }
{
    (i64::from(sample) + (number as i64 - (1i64 << 32))) as i32
}
