//! What a client asks of a channel that plays, as changes of its book and answers.

ghost use Rattle.std.specs.Prelude.{◌≡◌, pos, ◌+◌, ◌*◌, ◌^◌, ◌<◌, ◌≤◌, ◌+ℤ◌, ◌≤ℤ◌};
ghost use Rattle.pcm_format.specs.Frames.{frame_bytes};
ghost use Rattle.pcm_desk.specs.PlayBooks.{played_of};
ghost use Rattle.pcm_desk.specs.Here.{held_most};
ghost use Rattle.pcm_desk.specs.PlaySafe.{CanTellDelay, IsPlayCounted, IsFilled};
ghost use Rattle.pcm_desk.specs.PlayRequests.{delay_of, device_holds, still_to_pass, play_ask, play_posted, play_roused_in, play_set_trigger, play_stopped_in, play_tell_errors, play_triggered, play_with_opening, set_volume};

use crate::trigger::has_other_bits;
use crate::{Here, Opening, PLAY_BIT, PlayBook, PlayState, Turn};
use pcm_oss::{Answer, Errno, Request, is_volume};
use pcm_rate::Rate;

impl PlayBook {
    /// The book after a request of a channel that plays, and the reply, by the rate of the mix, and where it and the device are. What is
    /// asked of recordings alone is refused.
    pub fn asked(self, rate: Rate, mix_rate: u32, here: Here, request: Request) -> Turn<PlayBook>
        requires delay { CanTellDelay rate mix_rate here self }
        requires count { self.done + self.written < 2 ^ 64 }
        requires counted { IsPlayCounted self }
        ensures { result ≡ play_ask rate mix_rate here request self }
    {
        match request {
            Request::GetOSpace => Turn::telling(self, self.opening.space(self.free())),
            Request::GetOPtr => self.with_opening(self.opening.tell_pointer(self.played())),
            Request::GetODelay => self.telling(self.delay(rate, mix_rate, here)),
            Request::GetError => self.tell_errors(),
            Request::SetTrigger(bits) => self.set_trigger(here.mixed, bits),
            Request::SetPlayVol(volume) => self.set_volume(volume),
            Request::GetPlayVol => self.telling(self.volume),
            Request::Post => Turn::telling(self.posted(here.mixed), Answer::Done),
            Request::Sync => Turn::telling(self.drained(rate, here), Answer::Done),
            Request::Halt => Turn::telling(self.dropped(), Answer::Done),
            _ => self.with_opening(self.opening.asked(self.is_setup(), PLAY_BIT, request)),
        }
    }

    fn telling(self, number: u32) -> Turn<PlayBook>
        ensures { result ≡ record { book = self; reply = Ok (Answer.Number number) } }
    {
        Turn::telling(self, Answer::Number(number))
    }

    // What was done to the book's opening is done to the book.
    fn with_opening(self, turn: Turn<Opening>) -> Turn<PlayBook>
        ensures { result ≡ play_with_opening self turn }
    {
        Turn {
            book: PlayBook {
                opening: turn.book,
                ..self
            },
            reply: turn.reply,
        }
    }

    // The bytes that wait in the ring, and those that the device's still holds.
    fn delay(&self, rate: Rate, mix_rate: u32, here: Here) -> u32
        requires delay { CanTellDelay rate mix_rate here self.now }
        requires counted { IsPlayCounted self.now }
        ensures { result ≡ delay_of rate mix_rate here self.now }
    {
        self.fill() as u32 + self.device_holds(rate, mix_rate, here)
    }

    // The bytes of the run that the device's ring still holds.
    fn device_holds(&self, rate: Rate, mix_rate: u32, here: Here) -> u32
        requires { CanTellDelay rate mix_rate here self.now }
        ensures value { result ≡ device_holds rate mix_rate here self.now }
        ensures within { result < 2 ^ 30 }
    {
        if !self.is_started() {
            return 0;
        }
        // The position after the frames of the mix that the run may sound in so far.
        let mark = if self.is_draining() && self.has_given_all(rate) {
            self.last
        } else {
            here.mixed
        };
        let frames = still_to_pass(here.passed, mark);
        let settings = self.opening.settings;
        let lasting = frames * u64::from(settings.rate) / u64::from(mix_rate);
        lasting as u32 * settings.frame_bytes() as u32
    }

    // The bytes that the device has taken since the opening or its last halt.
    fn played(&self) -> u64
        requires count { self.now.done + self.now.written < 2 ^ 64 }
        requires filled { IsFilled self.now }
        ensures { result ≡ played_of self.now }
    {
        self.done + self.eaten * self.opening.settings.frame_bytes() as u64
    }

    fn set_volume(self, volume: u32) -> Turn<PlayBook>
        ensures { result ≡ set_volume volume self }
    {
        if !is_volume(volume) {
            return Turn::refused(self, Errno::Inval);
        }
        PlayBook { volume, ..self }.telling(volume)
    }

    fn tell_errors(self) -> Turn<PlayBook>
        ensures { result ≡ play_tell_errors self }
    {
        let errors = Answer::Errors {
            underruns: self.underruns,
            overruns: 0,
        };
        Turn::telling(
            PlayBook {
                underruns: 0,
                ..self
            },
            errors,
        )
    }

    // A primed book with a whole frame starts.
    fn roused(self, mixed: u64) -> PlayBook
        ensures { result ≡ play_roused_in mixed self.state self }
    {
        match self.state {
            PlayState::Primed if self.frames_written() > 0 => {
                self.started_at(mixed, PlayState::Running)
            }
            _ => self,
        }
    }

    // A post starts a book that may start.
    fn posted(self, mixed: u64) -> PlayBook
        ensures { result ≡ play_posted mixed self }
    {
        if self.opening.trigger {
            self.roused(mixed)
        } else {
            self
        }
    }

    // A primed or running book drops its bytes.
    fn stopped(self) -> PlayBook
        ensures { result ≡ play_stopped_in self.state self }
    {
        match self.state {
            PlayState::Primed | PlayState::Running => self.dropped(),
            _ => self,
        }
    }

    // The book once its trigger was set: on, it starts if it can; off, it stops.
    fn triggered(self, mixed: u64, trigger: bool) -> PlayBook
        ensures { result ≡ play_triggered mixed trigger self }
    {
        let opening = self.opening.with_trigger(trigger);
        let book = PlayBook { opening, ..self };
        if trigger {
            book.roused(mixed)
        } else {
            book.stopped()
        }
    }

    fn set_trigger(self, mixed: u64, bits: u32) -> Turn<PlayBook>
        ensures { result ≡ play_set_trigger mixed bits self }
    {
        if has_other_bits(bits) {
            return Turn::refused(self, Errno::Inval);
        }
        if self.is_draining() {
            return Turn::refused(self, Errno::Busy);
        }
        Turn::telling(self.triggered(mixed, bits >= PLAY_BIT), Answer::Done)
    }
}

// How many frames of the mix before a position are still to leave the device's ring.
fn still_to_pass(passed: i64, mark: u64) -> u64
    requires mark { mark < 2 ^ 56 }
    requires past { passed ≤ℤ pos mark }
    requires held { pos mark ≤ℤ (passed +ℤ pos held_most) }
    ensures value { result ≡ still_to_pass passed mark }
    ensures within { result ≤ held_most }
{
    (mark as i64 - passed) as u64
}
