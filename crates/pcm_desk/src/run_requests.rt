//! What is asked alike of a channel that records and of a mapped one: what it makes of the run, and of its opening.

ghost use Rattle.std.specs.Prelude.{◌≡◌, ◌<◌};
ghost use Rattle.pcm_oss.specs.Fragments.{AreFragments};
ghost use Rattle.pcm_desk.specs.RunRequests.{run_ask, run_doing, run_posted, run_set_trigger, run_staying, run_triggered};

use crate::trigger::has_other_bits;
use crate::{Opening, RunState, Turn};
use pcm_oss::{Answer, Errno, Request};

/// What becomes of a run.
#[derive(Clone, Copy)]
pub enum RunChange {
    Stays,
    /// Every interrupt counts from now on.
    Starts,
    /// All that was counted is dropped.
    Drops,
}

/// What a request makes of a run: its opening, and what becomes of what it counts.
#[derive(Clone, Copy)]
pub struct RunAsked {
    pub opening: Opening,
    pub change: RunChange,
}

impl RunState {
    // What a request makes of a run in this state with this opening, and the reply. `bit` is the trigger bit of the way. What is
    // asked of one way alone is refused.
    pub(crate) fn asked(self, bit: u32, request: Request, opening: Opening) -> Turn<RunAsked>
        requires bit { 0 < bit }
        requires fragments { AreFragments opening.fragments }
        ensures { result ≡ run_ask bit request self opening }
    {
        match request {
            Request::SetTrigger(bits) => self.set_trigger(bit, bits, opening),
            Request::Post => RunAsked::doing(self.posted(opening.trigger), opening),
            Request::Sync => RunAsked::doing(RunChange::Stays, opening),
            Request::Halt => RunAsked::doing(RunChange::Drops, opening),
            _ => {
                let setup = matches!(self, RunState::Setup);
                RunAsked::staying(opening.asked(setup, bit, request))
            }
        }
    }

    fn set_trigger(self, bit: u32, bits: u32, opening: Opening) -> Turn<RunAsked>
        requires bit { 0 < bit }
        ensures { result ≡ run_set_trigger bit bits self opening }
    {
        if has_other_bits(bits) {
            return RunAsked::staying(Turn::refused(opening, Errno::Inval));
        }
        let trigger = bits / bit % 2 == 1;
        RunAsked::doing(self.triggered(trigger), opening.with_trigger(trigger))
    }

    // Its trigger was set: on, a run in Setup starts; off, one that runs drops what it has.
    fn triggered(self, trigger: bool) -> RunChange
        ensures { result ≡ run_triggered trigger self }
    {
        match self {
            RunState::Setup if trigger => RunChange::Starts,
            RunState::Running if !trigger => RunChange::Drops,
            _ => RunChange::Stays,
        }
    }

    // A post starts a run that may start.
    fn posted(self, trigger: bool) -> RunChange
        ensures { result ≡ run_posted trigger self }
    {
        if trigger {
            self.triggered(true)
        } else {
            RunChange::Stays
        }
    }
}

impl RunAsked {
    // What was done to the opening, of a run that stays.
    pub(crate) fn staying(turn: Turn<Opening>) -> Turn<RunAsked>
        ensures { result ≡ run_staying turn }
    {
        Turn {
            book: RunAsked {
                opening: turn.book,
                change: RunChange::Stays,
            },
            reply: turn.reply,
        }
    }

    fn doing(change: RunChange, opening: Opening) -> Turn<RunAsked>
        ensures { result ≡ run_doing change opening }
    {
        Turn::telling(RunAsked { opening, change }, Answer::Done)
    }
}
