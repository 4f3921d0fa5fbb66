//! Interleaved samples through a section, in their place.

ghost use Rattle.std.specs.Prelude.{◌≡◌, ◌+◌, ◌*◌, ◌/◌, ℤ, List, length};
ghost use Rattle.pcm_feeder.specs.Limits.{IsSection};
ghost use Rattle.pcm_feeder.specs.Sections.{section_on};
ghost use Rattle.pcm_feeder.specs.Streams.{frames_of};
ghost use Rattle.feed_eq.specs.Lanes.{AreWholeFrames, BecomeFrames, CanPass, HoldsChannels, IsLaneAt, IsPassed, PutsChannels};

use crate::lane::Lane;
use pcm_feeder::Section;

/// Puts samples through a section, after the last two frames of its input and of its outputs.
pub fn pass(section: Section, channels: usize, input: &[i32], output: &[i32], samples: &mut [i32])
    requires section { IsSection section }
    requires input { length input.now ≡ 2 * channels }
    requires output { length output.now ≡ 2 * channels }
    requires whole_frames { AreWholeFrames channels samples.old }
    ensures { BecomeFrames (section_on channels section (frames_of channels input.now)
        (frames_of channels output.now) (frames_of channels samples.old)) samples.old samples.new }
{
    let mut channel = 0;
    while channel + 2 <= channels {
        let left = Lane::of(section, input, output, channels, channel);
        let right = Lane::of(section, input, output, channels, channel + 1);
        pass_two(section, left, right, channels, channel, samples);
        channel += 2;
    }
    if channel < channels {
        let lane = Lane::of(section, input, output, channels, channel);
        pass_one(section, lane, channels, channel, samples);
    }
}

// Puts a channel and the next one through. Two at once: what waits for the one's last output goes
// on with the other's.
fn pass_two(
    section: Section,
    left: Lane,
    right: Lane,
    channels: usize,
    channel: usize,
    samples: &mut [i32],
)
    requires { CanPass section channels (channel + 2) }
    ensures len { length samples.new ≡ length samples.old }
    ensures puts { (x y : List ℤ) → IsPassed section channels (length samples.old / channels) x y
        → IsLaneAt section channels x y 0 channel left
        → IsLaneAt section channels x y 0 (channel + 1) right
        → HoldsChannels channels channel (channel + 2) x samples.old
        → PutsChannels channels channel (channel + 2) y samples.old samples.new }
{
    let (mut left, mut right) = (left, right);
    for k in 0..samples.len() / channels {
        let at = k * channels + channel;
        let (first, second) = (samples[at], samples[at + 1]);
        let (one, two) = (left.next(section, first), right.next(section, second));
        samples[at] = one;
        samples[at + 1] = two;
        left = left.after(section, first, one);
        right = right.after(section, second, two);
    }
}

// Puts a channel through.
fn pass_one(section: Section, lane: Lane, channels: usize, channel: usize, samples: &mut [i32])
    requires { CanPass section channels (channel + 1) }
    ensures len { length samples.new ≡ length samples.old }
    ensures puts { (x y : List ℤ) → IsPassed section channels (length samples.old / channels) x y
        → IsLaneAt section channels x y 0 channel lane
        → HoldsChannels channels channel (channel + 1) x samples.old
        → PutsChannels channels channel (channel + 1) y samples.old samples.new }
{
    let mut lane = lane;
    for k in 0..samples.len() / channels {
        let at = k * channels + channel;
        let sample = samples[at];
        let made = lane.next(section, sample);
        samples[at] = made;
        lane = lane.after(section, sample, made);
    }
}
