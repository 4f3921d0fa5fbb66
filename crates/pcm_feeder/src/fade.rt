//! Samples at a gain.

ghost use Rattle.std.specs.Prelude.{◌≡◌, ◌<◌, ◌≤◌, ◌%◌, length, map};
ghost use Rattle.pcm_format.specs.Layouts.{channels_of};
ghost use Rattle.pcm_feeder.specs.Limits.{IsGain};
ghost use Rattle.pcm_feeder.specs.Streams.{frames_of, interleaved};
ghost use Rattle.pcm_feeder.specs.Gains.{at_gains, AreGains};
ghost use Rattle.pcm_feeder.specs.Fades.{faded};

use crate::{Gain, put_frame, side_gains};
use pcm_format::Layout;

/// Multiplies each sample by the gain of its side. A gain of one on both sides changes nothing, and costs nothing.
pub fn apply_gain(gain: Gain, layout: Layout, frames: &mut [i32])
    requires limits { IsGain gain }
    requires whole { length frames.old % channels_of layout ≡ 0 }
    ensures { frames.new ≡ faded layout gain frames.old }
{
    if gain.left == 65536 && gain.right == 65536 {
        return;
    }
    let gains = side_gains(layout, gain);
    fade_frames(&gains[..layout.channels()], frames);
}

// Multiplies each frame by the gains of its channels.
fn fade_frames(gains: &[u32], frames: &mut [i32])
    requires some { 0 < length gains.now }
    requires few { length gains.now ≤ 8 }
    requires limits { AreGains gains.now }
    requires whole { length frames.old % length gains.now ≡ 0 }
    ensures { frames.new ≡ interleaved (map (at_gains gains.now) (frames_of (length gains.now) frames.old)) }
{
    let channels = gains.len();
    for k in 0..frames.len() / channels {
        let at = k * channels;
        fade_frame(gains, &mut frames[at..at + channels]);
    }
}

// Multiplies one frame by the gains of its channels.
fn fade_frame(gains: &[u32], frame: &mut [i32])
    requires few { length gains.now ≤ 8 }
    requires limits { AreGains gains.now }
    requires frame { length frame.old ≡ length gains.now }
    ensures { frame.new ≡ at_gains gains.now frame.old }
{
    let mut copy = [0; 8];
    let before = &mut copy[..frame.len()];
    before.copy_from_slice(frame);
    put_frame(gains, before, frame);
}
