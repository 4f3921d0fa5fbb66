//! What each event does to a mapped book, as plain arithmetic.

ghost use Rattle.std.specs.Prelude.{◌≡◌, ◌+◌, ◌*◌, ◌^◌, ◌<◌};
ghost use Rattle.pcm_format.specs.Frames.{frame_bytes};
ghost use Rattle.pcm_oss.specs.Fragments.{AreFragments};
ghost use Rattle.pcm_desk.specs.RunStates.{is_unheld, is_running, is_in_setup};
ghost use Rattle.pcm_desk.specs.MapSafe.{CanTake};
ghost use Rattle.pcm_desk.specs.MapBooks.{map_begun, map_closed, map_emptied, map_gives, map_halted, map_refilled, poke_turn, taken_of};

use crate::{MapBook, Opening, RunState, Turn};
use pcm_format::Settings;
use pcm_oss::{Answer, Errno, VOLUME};
use pcm_rate::Rate;

impl MapBook {
    /// The book of a new opening.
    pub fn begun(settings: Settings) -> MapBook
        ensures { result ≡ map_begun settings }
    {
        MapBook {
            opening: Opening::begun(settings),
            volume: VOLUME,
            state: RunState::Setup,
            eaten: 0,
            given: 0,
        }
    }

    /// Whether the channel is free: no descriptor has it.
    pub fn is_free(&self) -> bool
        ensures { result ≡ is_unheld self.now.state }
    {
        matches!(self.state, RunState::Free)
    }

    /// Whether the channel is open and hasn't started.
    pub fn is_setup(&self) -> bool
        ensures { result ≡ is_in_setup self.now.state }
    {
        matches!(self.state, RunState::Setup)
    }

    /// Whether the channel has started.
    pub fn is_running(&self) -> bool
        ensures { result ≡ is_running self.now.state }
    {
        matches!(self.state, RunState::Running)
    }

    /// The bytes that the device has taken since the start.
    pub fn taken(&self) -> u64
        requires { self.now.eaten * frame_bytes self.now.opening.settings < 2 ^ 64 }
        ensures { result ≡ taken_of self.now }
    {
        self.eaten * self.opening.settings.frame_bytes() as u64
    }

    // Nothing of a run is left.
    fn emptied(self, state: RunState) -> MapBook
        ensures { result ≡ map_emptied state self }
    {
        let opening = Opening {
            told: 0,
            ..self.opening
        };
        MapBook {
            opening,
            state,
            eaten: 0,
            given: 0,
            ..self
        }
    }

    // A run ends.
    pub(crate) fn halted(self) -> MapBook
        ensures { result ≡ map_halted self }
    {
        self.emptied(RunState::Setup)
    }

    /// The book after a close.
    pub fn closed(self) -> MapBook
        ensures { result ≡ map_closed self }
    {
        self.emptied(RunState::Free)
    }

    /// The book after `count` bytes were written into the area from `offset` on. What passes its end is refused.
    pub fn poke(self, offset: u32, count: u64) -> Turn<MapBook>
        requires count { count < 2 ^ 63 }
        requires fragments { AreFragments self.opening.fragments }
        ensures { result ≡ poke_turn offset count self }
    {
        if u64::from(offset) + count > u64::from(self.opening.fragments.size()) {
            return Turn::refused(self, Errno::Inval);
        }
        Turn::telling(self, Answer::Done)
    }

    /// The book after an interrupt that mixes `n` frames.
    pub fn refilled(self, rate: Rate, n: u64) -> MapBook
        requires { CanTake rate n self }
        ensures { result ≡ map_refilled rate n self }
    {
        match self.state {
            RunState::Running => self.gives(rate, n),
            _ => self,
        }
    }

    // What the next `n` frames need is taken.
    fn gives(self, rate: Rate, n: u64) -> MapBook
        requires { CanTake rate n self }
        ensures { result ≡ map_gives rate n self }
    {
        let given = self.given + n;
        MapBook {
            eaten: rate.need(given) as u64,
            given,
            ..self
        }
    }
}
