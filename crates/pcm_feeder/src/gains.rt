//! A gain for each channel.

ghost use Rattle.std.specs.Prelude.{◌≡◌, ◌≤◌, length, map, take};
ghost use Rattle.pcm_format.specs.Layouts.{channels_of, positions_of};
ghost use Rattle.pcm_feeder.specs.Layouts.{side_gain};
ghost use Rattle.pcm_feeder.specs.Limits.{IsGain};
ghost use Rattle.pcm_feeder.specs.Gains.{at_gains, scaled, AreGains};

use crate::Gain;
use pcm_format::Layout;

/// The gain of each channel of a layout: that of its side, or the mean of both. Elements past them are unused.
pub fn side_gains(layout: Layout, gain: Gain) -> [u32; 8]
    requires { IsGain gain }
    ensures { take (channels_of layout) result ≡ map (side_gain gain) (positions_of layout) }
{
    let Gain { left, right } = gain;
    let both = (left + right) / 2;
    match layout {
        Layout::One => [both; 8],
        Layout::Two | Layout::Four => [left, right, left, right, left, right, left, right],
        Layout::Six | Layout::Eight => [left, right, both, both, left, right, left, right],
    }
}

/// Puts one frame, with a gain for each channel, each product rounded down.
pub fn put_frame(gains: &[u32], frame: &[i32], output: &mut [i32])
    requires limits { AreGains gains.now }
    requires frame { length frame.now ≡ length gains.now }
    requires room { length output.old ≡ length gains.now }
    ensures { output.new ≡ at_gains gains.now frame.now }
{
    for (channel, gain) in gains.iter().enumerate() {
        output[channel] = scaled(frame[channel], *gain);
    }
}

// A sample times a gain of at most one, rounded down.
fn scaled(sample: i32, gain: u32) -> i32
    requires { gain ≤ 65536 }
    ensures { result ≡ scaled gain sample }
{
    ((i64::from(sample) * i64::from(gain)) >> 16) as i32
}
