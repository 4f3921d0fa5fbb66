//! What each event does to a book, as plain arithmetic.

ghost use Rattle.std.specs.Prelude.{◌≡◌, ◌+◌, ◌*◌, ◌^◌, ◌<◌, ◌≤◌};
ghost use Rattle.pcm_format.specs.Frames.{frame_bytes};
ghost use Rattle.pcm_rate.specs.Rates.{IsRatio};
ghost use Rattle.pcm_desk.specs.PlaySafe.{CanEnd, CanRefill, IsPlayCounted, IsFilled};
ghost use Rattle.pcm_desk.specs.PlayBooks.{accepting, close_turn, drained_in, finished, frames_written, gives, giving, has_given_all, is_draining, is_play_free, is_play_setup, is_started, last_after, may_start, play_begun, play_is_ready, play_dropped, play_emptied, play_fill_of, play_free_of, play_settled, primed_in, refilled, started_at, started_in, takes_none, write_turn};

use crate::{Here, Opening, PlayBook, PlayState, Turn};
use pcm_format::Settings;
use pcm_oss::{Answer, Errno, VOLUME};
use pcm_rate::Rate;

impl PlayBook {
    /// The book of a new opening.
    pub fn begun(settings: Settings) -> PlayBook
        ensures { result ≡ play_begun settings }
    {
        PlayBook {
            opening: Opening::begun(settings),
            volume: VOLUME,
            state: PlayState::Setup,
            written: 0,
            eaten: 0,
            given: 0,
            done: 0,
            underruns: 0,
            last: 0,
        }
    }

    /// Whether the channel is free: no descriptor has it, and nothing of it is left to play.
    pub fn is_free(&self) -> bool
        ensures { result ≡ is_play_free self.now.state }
    {
        matches!(self.state, PlayState::Free)
    }

    /// Whether the channel is open, and nothing of a run is there.
    pub fn is_setup(&self) -> bool
        ensures { result ≡ is_play_setup self.now.state }
    {
        matches!(self.state, PlayState::Setup)
    }

    /// Whether a run may start at any moment: it waits with a whole frame.
    pub fn is_ready(&self) -> bool
        ensures { result ≡ play_is_ready self.now }
    {
        matches!(self.state, PlayState::Primed) && self.frames_written() > 0
    }

    /// Whether nothing more will be written of the run.
    pub fn is_draining(&self) -> bool
        ensures { result ≡ is_draining self.now.state }
    {
        matches!(self.state, PlayState::Draining { .. })
    }

    /// Whether interrupts take frames of the run.
    pub fn is_started(&self) -> bool
        ensures { result ≡ is_started self.now.state }
    {
        matches!(self.state, PlayState::Running | PlayState::Draining { .. })
    }

    /// The whole frames accepted in this run.
    pub fn frames_written(&self) -> u64
        ensures { result ≡ frames_written self.now }
    {
        self.written / self.opening.settings.frame_bytes() as u64
    }

    /// The bytes that wait in the ring.
    pub fn fill(&self) -> u64
        requires { self.now.eaten * frame_bytes self.now.opening.settings ≤ self.now.written }
        ensures { result ≡ play_fill_of self.now }
    {
        self.written - self.eaten * self.opening.settings.frame_bytes() as u64
    }

    // The bytes that fit the ring.
    pub(crate) fn free(&self) -> u32
        requires { IsPlayCounted self.now }
        ensures { result ≡ play_free_of self.now }
    {
        self.opening.fragments.size() - self.fill() as u32
    }

    /// The book after a write of `length` bytes, and how many of them are accepted: as many as fit. A run may start by it.
    pub fn write(self, here: Here, length: u64) -> Turn<PlayBook>
        requires count { self.written + length < 2 ^ 64 }
        requires counted { IsPlayCounted self }
        ensures { result ≡ write_turn here length self }
    {
        if self.takes_none() {
            return Turn::refused(self, Errno::Busy);
        }
        let free = self.free();
        if length > 0 && free == 0 {
            return Turn::refused(self, Errno::Again);
        }
        let accepted = length.min(u64::from(free));
        Turn::telling(
            self.accepting(here.mixed, accepted),
            Answer::Number(accepted as u32),
        )
    }

    // Whether the book takes no bytes: it is free, or drains.
    fn takes_none(&self) -> bool
        ensures { result ≡ takes_none self.now.state }
    {
        matches!(self.state, PlayState::Free | PlayState::Draining { .. })
    }

    // The book after `accepted` more bytes, where `mixed` frames were mixed.
    fn accepting(self, mixed: u64, accepted: u64) -> PlayBook
        requires count { self.written + accepted < 2 ^ 64 }
        requires filled { IsFilled self }
        ensures { result ≡ accepting mixed accepted self }
    {
        let more = PlayBook {
            written: self.written + accepted,
            ..self
        };
        more.primed().started(mixed)
    }

    // With bytes in it the book isn't in Setup.
    fn primed(self) -> PlayBook
        ensures { result ≡ primed_in self.state self }
    {
        match self.state {
            PlayState::Setup if self.written > 0 => PlayBook {
                state: PlayState::Primed,
                ..self
            },
            _ => self,
        }
    }

    // A primed book that may start does so at a full fragment.
    fn started(self, mixed: u64) -> PlayBook
        requires { IsFilled self }
        ensures { result ≡ started_in mixed self.state self }
    {
        match self.state {
            PlayState::Primed if self.may_start() => self.started_at(mixed, PlayState::Running),
            _ => self,
        }
    }

    // A run starts where `mixed` frames were mixed.
    pub(crate) fn started_at(self, mixed: u64, state: PlayState) -> PlayBook
        ensures { result ≡ started_at mixed state self }
    {
        PlayBook {
            state,
            last: mixed,
            ..self
        }
    }

    // Whether the trigger is on, and a full fragment waits.
    fn may_start(&self) -> bool
        requires { IsFilled self.now }
        ensures { result ≡ may_start self.now }
    {
        self.opening.trigger && self.fill() >= u64::from(self.opening.fragments.bytes())
    }

    /// The book after a close.
    pub fn closed(self, rate: Rate, here: Here) -> PlayBook
        requires { CanEnd rate self }
        ensures { result ≡ close_turn rate here self }
    {
        let drained = self.drained(rate, here);
        match drained.state {
            PlayState::Setup => PlayBook {
                state: PlayState::Free,
                ..drained
            },
            PlayState::Draining { .. } => PlayBook {
                state: PlayState::Draining { closed: true },
                ..drained
            },
            _ => drained,
        }
    }

    // No more comes. A part of a frame alone is dropped.
    pub(crate) fn drained(self, rate: Rate, here: Here) -> PlayBook
        requires { CanEnd rate self }
        ensures { result ≡ drained_in rate here self.state self }
    {
        let draining = PlayState::Draining { closed: false };
        match self.state {
            PlayState::Primed if self.frames_written() > 0 => self.started_at(here.mixed, draining),
            PlayState::Primed => self.emptied(PlayState::Setup),
            PlayState::Running => PlayBook {
                state: draining,
                ..self
            }
            .settled(rate, here),
            _ => self,
        }
    }

    // Nothing of a run is left.
    fn emptied(self, state: PlayState) -> PlayBook
        ensures { result ≡ play_emptied state self }
    {
        PlayBook {
            state,
            written: 0,
            eaten: 0,
            given: 0,
            ..self
        }
    }

    // A run ends that was played whole.
    fn finished(self, state: PlayState) -> PlayBook
        requires { self.done + self.written < 2 ^ 64 }
        ensures { result ≡ finished state self }
    {
        PlayBook {
            done: self.done + self.frames_written() * self.opening.settings.frame_bytes() as u64,
            ..self.emptied(state)
        }
    }

    // All bytes are dropped, and positions begin at 0 again.
    pub(crate) fn dropped(self) -> PlayBook
        ensures { result ≡ play_dropped self }
    {
        let opening = Opening {
            told: 0,
            ..self.opening
        };
        PlayBook {
            opening,
            done: 0,
            ..self.emptied(PlayState::Setup)
        }
    }

    /// The book where the mix and the device are: a draining one whose last frame has left the device ends.
    pub fn settled(self, rate: Rate, here: Here) -> PlayBook
        requires { CanEnd rate self }
        ensures { result ≡ play_settled rate here.passed self }
    {
        match self.state {
            PlayState::Draining { closed }
                if self.has_given_all(rate) && i128::from(self.last) <= i128::from(here.passed) => {
                self.finished(if closed {
                    PlayState::Free
                } else {
                    PlayState::Setup
                })
            }
            _ => self,
        }
    }

    // Whether all that the run lasts for was given.
    pub(crate) fn has_given_all(&self, rate: Rate) -> bool
        requires { IsRatio rate }
        ensures { result ≡ has_given_all rate self.now }
    {
        u128::from(self.given) == rate.len(self.frames_written())
    }

    /// How many of `n` frames the book gives to the mix.
    #[inline(always)]
    pub fn giving(&self, rate: Rate, n: u64) -> u64
        requires { IsRatio rate }
        ensures value { result ≡ giving rate n self.now }
        ensures within { result ≤ n }
    {
        let allowed = match self.state {
            PlayState::Running => rate.can(self.frames_written()),
            PlayState::Draining { .. } => rate.len(self.frames_written()),
            PlayState::Free | PlayState::Setup | PlayState::Primed => 0,
        };
        u128::from(n).min(allowed.saturating_sub(u128::from(self.given))) as u64
    }

    /// The book after an interrupt that mixes `n` frames, where `mixed` were mixed before.
    pub fn refilled(self, rate: Rate, mixed: u64, n: u64) -> PlayBook
        requires { CanRefill rate mixed n self }
        ensures { result ≡ refilled rate mixed n self }
    {
        match self.state {
            // Fewer than `n` frames are a shortage. The count stands still at its end.
            PlayState::Running if self.giving(rate, n) < n => PlayBook {
                underruns: self.underruns.saturating_add(1),
                ..self.gives(rate, mixed, n)
            },
            PlayState::Running | PlayState::Draining { .. } => self.gives(rate, mixed, n),
            _ => self,
        }
    }

    // The frames of an interrupt leave the ring and go into the mix. Inlined, so that its caller's count of them and its own are one.
    #[inline(always)]
    fn gives(self, rate: Rate, mixed: u64, n: u64) -> PlayBook
        requires { CanRefill rate mixed n self }
        ensures { result ≡ gives rate mixed n self }
    {
        let needed = rate
            .need(self.given + n)
            .min(u128::from(self.frames_written()));
        let count = self.giving(rate, n);
        PlayBook {
            eaten: self.eaten.max(needed as u64),
            given: self.given + count,
            last: self.last_after(mixed, count),
            ..self
        }
    }

    // The position after the last frame that the run gives, where the mix gets `count` more of its frames.
    fn last_after(&self, mixed: u64, count: u64) -> u64
        requires { mixed + count < 2 ^ 64 }
        ensures { result ≡ last_after mixed count self.now }
    {
        if count > 0 { mixed + count } else { self.last }
    }
}
