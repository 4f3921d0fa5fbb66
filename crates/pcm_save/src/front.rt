//! Parts of the bytes of a state.

ghost use Rattle.std.specs.Prelude.{◌≡◌, ◌≤◌, ◌+◌, ◌*◌, length, IfOk, IsOk};
ghost use Rattle.pcm_save.specs.Parts.{HasPast, HasRest, HasRow, IsPart};

use crate::StateFault;
use pcm_state::{load_numbers, load_samples};

/// So many bytes from a place on.
pub fn part(bytes: &[u8], at: usize, size: usize) -> Result<&[u8], StateFault>
    ensures part { IfOk result (λ part. IsPart bytes.now at size part.now) }
    ensures taken { at + size ≤ length bytes.now → IsOk result }
{
    if at <= bytes.len() && size <= bytes.len() - at {
        Ok(&bytes[at..at + size])
    } else {
        Err(StateFault::Short)
    }
}

/// Loads the row of numbers at the front.
pub fn load_row(bytes: &[u8], row: &mut [u64]) -> Result<(), StateFault>
    requires few { length row.old ≤ 256 }
    ensures row { IfOk result (λ _. HasRow bytes.now row.new) }
    ensures taken { 8 * length row.old ≤ length bytes.now → IsOk result }
{
    let front = part(bytes, 0, 8 * row.len())?;
    load_numbers(front, row);
    Ok(())
}

/// Loads samples from a place on.
pub(crate) fn load_past(bytes: &[u8], at: usize, past: &mut [i32]) -> Result<(), StateFault>
    requires few { length past.old ≤ 65536 }
    ensures past { IfOk result (λ _. HasPast bytes.now at past.new) }
    ensures taken { at + 4 * length past.old ≤ length bytes.now → IsOk result }
    ensures len { length past.new ≡ length past.old }
{
    let part = part(bytes, at, 4 * past.len())?;
    load_samples(part, past);
    Ok(())
}

/// So many bytes from a place on. The samples that stand behind them are loaded.
pub(crate) fn load_rest<'a>(
    bytes: &'a [u8],
    at: usize,
    size: usize,
    past: &mut [i32],
) -> Result<&'a [u8], StateFault>
    requires few { length past.old ≤ 65536 }
    ensures rest { IfOk result (λ waiting. HasRest bytes.now at size waiting.now past.new) }
    ensures taken { at + size + 4 * length past.old ≤ length bytes.now → IsOk result }
    ensures len { length past.new ≡ length past.old }
{
    let waiting = part(bytes, at, size)?;
    load_past(bytes, at + size, past)?;
    Ok(waiting)
}
