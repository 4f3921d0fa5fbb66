//! Volumes, and the gains that they mean.

ghost use Rattle.std.specs.Prelude.{◌≡◌, IsTrue};
ghost use Rattle.pcm_oss.specs.Volumes.{IsGainOf, is_volume};

use pcm_feeder::Gain;

/// The volume of an opening: 100 on both sides.
pub const VOLUME: u32 = 0x6464;

/// Whether a number is a volume: 0 to 100 for the left side in the low byte, and for the right side in the next.
pub fn is_volume(volume: u32) -> bool
    ensures { result ≡ is_volume volume }
{
    volume % 256 <= 100 && volume / 256 % 256 <= 100 && volume < 65536
}

/// The gain of a volume on each side: hundredths of one, rounded down.
pub fn gain_of(volume: u32) -> Gain
    requires { IsTrue (is_volume volume) }
    ensures { IsGainOf volume result }
{
    Gain {
        left: volume % 256 * 65536 / 100,
        right: volume / 256 % 256 * 65536 / 100,
    }
}
