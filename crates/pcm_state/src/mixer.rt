//! The row of the mixer device.

ghost use Rattle.std.specs.Prelude.{◌≡◌, IfSome, Some};
ghost use Rattle.pcm_mixdev.specs.Mixers.{Levels};
ghost use Rattle.pcm_state.specs.MixerRows.{mixer_row, FitsMixer};

use crate::codes::word;
use crate::slots::{flags, put_flags, put_words, words};
use pcm_mixdev::MixDev;
use pcm_oss::SLOTS;

/// The numbers of the mixer device.
pub const MIXER_NUMBERS: usize = 33;

/// The row of the mixer device.
pub fn mixer_row(mixer: &MixDev) -> [u64; MIXER_NUMBERS]
    ensures row { result ≡ mixer_row mixer.now }
    ensures fits { FitsMixer mixer.now }
{
    let mut row = [0; MIXER_NUMBERS];
    row[0] = u64::from(mixer.volume());
    put_words(&mixer.volumes(), &mut row[1..1 + SLOTS]);
    put_flags(&mixer.muted(), &mut row[1 + SLOTS..]);
    row
}

/// The mixer device that has this row, if one has.
pub fn mixer_from_row(row: &[u64; MIXER_NUMBERS]) -> Option<MixDev>
    ensures row { IfSome result (λ mixer. mixer_row mixer ≡ row.now) }
    ensures fits { IfSome result FitsMixer }
    ensures some { (mixer : Levels) → FitsMixer mixer → mixer_row mixer ≡ row.now → result ≡ Some mixer }
{
    let volumes = words(&row[1..1 + SLOTS])?;
    let muted = flags(&row[1 + SLOTS..])?;
    MixDev::with_levels(word(row[0])?, volumes, muted)
}
