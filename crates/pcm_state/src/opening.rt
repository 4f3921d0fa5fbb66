//! The row of an opening.

ghost use Rattle.std.specs.Prelude.{◌≡◌, IfSome, Some};
ghost use Rattle.pcm_desk.specs.declared.opening.Opening.{Opening};
ghost use Rattle.pcm_state.specs.OpeningRows.{opening_row, FitsOpening};

use crate::codes::{flag, format, layout, word};
use pcm_desk::Opening;
use pcm_format::Settings;
use pcm_oss::Fragments;

/// The numbers of an opening.
pub const OPENING_NUMBERS: usize = 7;

/// The row of an opening.
pub fn opening_row(opening: &Opening) -> [u64; OPENING_NUMBERS]
    ensures row { result ≡ opening_row opening.now }
    ensures fits { FitsOpening opening.now }
{
    let (rate, count, log, told) = (
        opening.settings.rate,
        opening.fragments.count,
        opening.fragments.log,
        opening.told,
    );
    [
        u64::from(opening.settings.format.code()),
        u64::from(rate),
        opening.settings.layout.channels() as u64,
        u64::from(count),
        u64::from(log),
        u64::from(opening.trigger),
        told,
    ]
}

/// The opening that has this row, if one has.
pub fn opening_from_row(row: &[u64; OPENING_NUMBERS]) -> Option<Opening>
    ensures row { IfSome result (λ opening. opening_row opening ≡ row.now) }
    ensures some { (opening : Opening) → FitsOpening opening → opening_row opening ≡ row.now → result ≡ Some opening }
{
    let [code, rate, channels, count, log, trigger, told] = *row;
    Some(Opening {
        settings: Settings {
            format: format(code)?,
            layout: layout(channels)?,
            rate: word(rate)?,
        },
        fragments: Fragments {
            log: word(log)?,
            count: word(count)?,
        },
        trigger: flag(trigger)?,
        told,
    })
}
