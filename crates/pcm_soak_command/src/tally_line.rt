//! The line of a run's tally. It is written without memory, into bytes that the caller has.

ghost use Rattle.std.specs.Prelude.{◌≡◌, ◌+◌, ◌++◌, ◌≤◌, length, take};
ghost use Rattle.std.specs.Fmt.{decimal};
ghost use Rattle.pcm_report.specs.Texts.{IsPut};
ghost use Rattle.pcm_report.specs.declared.texts.TheConstants.{DIGITS};
ghost use Rattle.pcm_verdict.specs.Soaks.{tally_line};

use pcm_report::{put_number, put_text};
use pcm_soak::Tally;

/// How many bytes the line has at most.
pub const TALLY_BYTES: usize = 256;

/// Writes the line to the front of `out`. Answers how many bytes it has.
pub fn write_tally(events: u64, frames: u64, tally: &Tally, out: &mut [u8]) -> usize
    requires room { TALLY_BYTES ≤ length out.old }
    ensures line { take result out.new ≡ tally_line events frames tally.now }
    ensures within { result ≤ TALLY_BYTES }
{
    let at = put_count(out, 0, "events ", events);
    let at = put_count(out, at, " frames ", frames);
    let at = put_count(out, at, " accepted ", tally.accepted);
    let at = put_count(out, at, " read ", tally.read);
    let at = put_count(out, at, " refused ", tally.refused);
    let at = put_count(out, at, " errors ", tally.errors);
    let at = put_count(out, at, " sum ", tally.sum);
    put_text(out, at, "\n")
}

// Puts a number after what it counts.
fn put_count(out: &mut [u8], at: usize, name: &str, number: u64) -> usize
    requires room { at + length name.now + DIGITS ≤ length out.old }
    ensures put { IsPut (name.now ++ decimal number) at result out.old out.new }
    ensures within { result ≤ at + length name.now + DIGITS }
{
    let at = put_text(out, at, name);
    put_number(out, at, number)
}
