//! What every book's opening has.

ghost use Rattle.std.specs.Prelude.{◌≡◌, ◌↔◌, ◌*◌, true};
ghost use Rattle.pcm_feeder.specs.Limits.{IsRate};
ghost use Rattle.pcm_format.specs.Frames.{frame_bytes};
ghost use Rattle.pcm_rate.specs.Rates.{IsRatio};
ghost use Rattle.pcm_oss.specs.Fragments.{AreFragments};

use pcm_format::{RATE_LEAST, RATE_MOST, Settings};
use pcm_oss::{Fragments, RING_BYTES};
use pcm_rate::Rate;

/// Whether both rates are above 0.
pub(crate) fn is_ratio(rate: Rate) -> bool
    ensures { (result ≡ true) ↔ IsRatio rate }
{
    0 < rate.src && 0 < rate.dst
}

/// Whether a rate is within the limits.
pub fn is_rate(rate: u32) -> bool
    ensures { (result ≡ true) ↔ IsRate rate }
{
    RATE_LEAST <= rate && rate <= RATE_MOST
}

/// Whether a ring can be cut like this.
pub(crate) fn are_fragments(fragments: Fragments) -> bool
    ensures { (result ≡ true) ↔ AreFragments fragments }
{
    let Fragments { log, count } = fragments;
    4 <= log && log <= 16 && 2 <= count && u64::from(count) * (1 << log) <= u64::from(RING_BYTES)
}

/// The bytes of this many frames.
pub(crate) fn bytes_of(frames: u64, settings: Settings) -> u128
    ensures { result ≡ frames * frame_bytes settings }
{
    u128::from(frames) * settings.frame_bytes() as u128
}
