//! What each event does to a record book, as plain arithmetic.

ghost use Rattle.std.specs.Prelude.{◌≡◌, ◌+◌, ◌^◌, ◌<◌, ◌≤◌};
ghost use Rattle.pcm_rate.specs.Rates.{IsRatio};
ghost use Rattle.pcm_desk.specs.RunStates.{is_unheld, is_in_setup, is_running};
ghost use Rattle.pcm_desk.specs.RecordBooks.{captured, captures, closed, coming, keeping, overruns_after, read_turn, record_begun, record_dropped, record_emptied, record_fill_of, record_free_of};
ghost use Rattle.pcm_desk.specs.RecordSafe.{CanCapture, CanKeep, IsRecordCounted};

use crate::{Opening, RecordBook, RunState, Turn};
use pcm_format::Settings;
use pcm_oss::{Answer, Errno};
use pcm_rate::Rate;

impl RecordBook {
    /// The book of a new opening.
    pub fn begun(settings: Settings) -> RecordBook
        ensures { result ≡ record_begun settings }
    {
        RecordBook {
            opening: Opening::begun(settings),
            state: RunState::Setup,
            captured: 0,
            given: 0,
            kept: 0,
            read: 0,
            overruns: 0,
        }
    }

    /// Whether the channel is free: no descriptor has it.
    pub fn is_free(&self) -> bool
        ensures { result ≡ is_unheld self.now.state }
    {
        matches!(self.state, RunState::Free)
    }

    /// Whether the channel has started.
    pub fn is_running(&self) -> bool
        ensures { result ≡ is_running self.now.state }
    {
        matches!(self.state, RunState::Running)
    }

    /// Whether the channel is open and hasn't started.
    pub fn is_setup(&self) -> bool
        ensures { result ≡ is_in_setup self.now.state }
    {
        matches!(self.state, RunState::Setup)
    }

    /// The bytes that wait in the ring.
    pub fn fill(&self) -> u64
        requires { self.now.read ≤ self.now.kept }
        ensures { result ≡ record_fill_of self.now }
    {
        self.kept - self.read
    }

    // Nothing of a run is left.
    fn emptied(self, state: RunState) -> RecordBook
        ensures { result ≡ record_emptied state self }
    {
        let opening = Opening {
            told: 0,
            ..self.opening
        };
        RecordBook {
            opening,
            state,
            captured: 0,
            given: 0,
            kept: 0,
            read: 0,
            ..self
        }
    }

    // All bytes are dropped, and positions begin at 0 again.
    pub(crate) fn dropped(self) -> RecordBook
        ensures { result ≡ record_dropped self }
    {
        self.emptied(RunState::Setup)
    }

    /// The book after a close.
    pub fn closed(self) -> RecordBook
        ensures { result ≡ closed self }
    {
        self.emptied(RunState::Free)
    }

    /// The book after a read of at most `length` bytes, and how many it gets: as many as wait.
    pub fn read(self, length: u64) -> Turn<RecordBook>
        requires { IsRecordCounted self }
        ensures { result ≡ read_turn length self }
    {
        let waiting = self.fill();
        if length > 0 && waiting == 0 {
            return Turn::refused(self, Errno::Again);
        }
        let count = length.min(waiting);
        let book = RecordBook {
            read: self.read + count,
            ..self
        };
        Turn::telling(book, Answer::Got(count as u32))
    }

    // The bytes that fit the ring.
    fn free(&self) -> u32
        requires { IsRecordCounted self.now }
        ensures { result ≡ record_free_of self.now }
    {
        self.opening.fragments.size() - self.fill() as u32
    }

    // How many frames come of the next `n` captured ones.
    fn coming(&self, rate: Rate, n: u64) -> u128
        requires rate { IsRatio rate }
        requires captured { self.now.captured + n < 2 ^ 64 }
        ensures { result ≡ coming rate n self.now }
    {
        rate.can(self.captured + n)
            .saturating_sub(u128::from(self.given))
    }

    // How many of them the ring keeps: whole frames, and the first ones.
    fn keeping(&self, rate: Rate, n: u64) -> u64
        requires { CanKeep rate n self.now }
        ensures { result ≡ keeping rate n self.now }
    {
        let room = u128::from(self.free()) / self.opening.settings.frame_bytes() as u128;
        self.coming(rate, n).min(room) as u64
    }

    /// The book after an interrupt that captures `n` frames.
    pub fn captured(self, rate: Rate, n: u64) -> RecordBook
        requires { CanCapture rate n self }
        ensures { result ≡ captured rate n self }
    {
        match self.state {
            RunState::Running => self.captures(rate, n),
            _ => self,
        }
    }

    // All that come of the captured frames do, and the first ones are kept.
    fn captures(self, rate: Rate, n: u64) -> RecordBook
        requires { CanCapture rate n self }
        ensures { result ≡ captures rate n self }
    {
        let frame_bytes = self.opening.settings.frame_bytes() as u64;
        RecordBook {
            captured: self.captured + n,
            given: self.given + self.coming(rate, n) as u64,
            kept: self.kept + self.keeping(rate, n) * frame_bytes,
            overruns: self.overruns_after(rate, n),
            ..self
        }
    }

    // More frames than are kept are an overrun. The count stands still at its end.
    fn overruns_after(&self, rate: Rate, n: u64) -> u32
        requires { CanKeep rate n self.now }
        ensures { result ≡ overruns_after rate n self.now }
    {
        if u128::from(self.keeping(rate, n)) < self.coming(rate, n) {
            self.overruns.saturating_add(1)
        } else {
            self.overruns
        }
    }
}
