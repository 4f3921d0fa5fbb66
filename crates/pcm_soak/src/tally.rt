//! The sums of a script's replies and of the device's bytes.

ghost use Rattle.std.specs.Prelude.{◌≡◌, ◌+◌, ◌*◌, ◌^◌, ◌<◌, ◌≤◌, ℕ, length};
ghost use Rattle.pcm_soak.specs.declared.limits.TheConstants.{SOAK_EVENTS};
ghost use Rattle.pcm_soak.specs.Tallies.{IsWithin, accepted_by, errors_by, no_tally, read_by, refused_by, tallied, total};

use pcm_oss::{Answer, Errno, Event, ReplyBuf};

/// The bytes that writes had accepted and that reads got, the events that were refused, the shortages that were reported, and
/// the sum of the device's bytes.
#[derive(Clone, Copy, Debug, PartialEq, Eq)]
pub struct Tally {
    pub accepted: u64,
    pub read: u64,
    pub refused: u64,
    pub errors: u64,
    pub sum: u64,
}

impl Tally {
    /// Nothing was counted yet.
    pub fn none() -> Tally
        ensures { result ≡ no_tally }
    {
        Tally {
            accepted: 0,
            read: 0,
            refused: 0,
            errors: 0,
            sum: 0,
        }
    }

    /// Counts one event and its reply.
    pub fn count(&mut self, event: &Event, reply: &ReplyBuf)
        requires few { IsWithin SOAK_EVENTS self.old }
        ensures counted { self.new ≡ tallied self.old event.now reply.now }
        ensures within { (events : ℕ) → IsWithin events self.old → IsWithin (events + 1) self.new }
    {
        let told = reply.result();
        self.accepted += u64::from(accepted_by(event, told));
        self.read += u64::from(read_by(told));
        self.refused += refused_by(told);
        self.errors += errors_by(told);
    }

    /// Adds the bytes that the device got.
    pub fn hear(&mut self, bytes: &[u8])
        requires few { self.old.sum + 255 * length bytes.now < 2 ^ 64 }
        ensures heard { self.new ≡ record self.old { sum = self.old.sum + total bytes.now } }
        ensures few { total bytes.now ≤ 255 * length bytes.now }
    {
        for byte in bytes {
            self.sum += u64::from(*byte);
        }
    }
}

// The bytes that a write had accepted, which its answer states.
fn accepted_by(event: &Event, told: Result<Answer, Errno>) -> u32
    ensures { result ≡ accepted_by event.now told }
{
    match (event, told) {
        (Event::Write { .. }, Ok(Answer::Number(number))) => number,
        _ => 0,
    }
}

// The bytes that a read got.
fn read_by(told: Result<Answer, Errno>) -> u32
    ensures { result ≡ read_by told }
{
    match told {
        Ok(Answer::Got(count)) => count,
        _ => 0,
    }
}

// A refusal counts as one.
fn refused_by(told: Result<Answer, Errno>) -> u64
    ensures value { result ≡ refused_by told }
    ensures most { result ≤ 1 }
{
    if told.is_err() { 1 } else { 0 }
}

// The shortages that are reported, of playing and of recording.
fn errors_by(told: Result<Answer, Errno>) -> u64
    ensures value { result ≡ errors_by told }
    ensures most { result ≤ 2 ^ 33 }
{
    match told {
        Ok(
            Answer::Errors {
                underruns,
                overruns,
            },
        ) => u64::from(underruns) + u64::from(overruns),
        _ => 0,
    }
}
