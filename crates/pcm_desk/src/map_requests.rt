//! What a client asks of a mapped channel, as changes of its book and answers.

ghost use Rattle.std.specs.Prelude.{◌≡◌, ◌*◌, ◌^◌, ◌<◌};
ghost use Rattle.pcm_format.specs.Frames.{frame_bytes};
ghost use Rattle.pcm_oss.specs.Fragments.{AreFragments};
ghost use Rattle.pcm_desk.specs.MapRequests.{map_ask, map_run, map_set_volume};

use crate::run_requests::{RunAsked, RunChange};
use crate::{MapBook, PLAY_BIT, RunState, Turn};
use pcm_oss::{Answer, Errno, Request, is_volume};

impl MapBook {
    /// The book after a request of a mapped channel, and the reply. What is asked of others alone is refused.
    pub fn asked(self, request: Request) -> Turn<MapBook>
        requires taken { self.eaten * frame_bytes self.opening.settings < 2 ^ 64 }
        requires fragments { AreFragments self.opening.fragments }
        ensures { result ≡ map_ask request self }
    {
        match request {
            Request::GetOPtr => self.with_run(RunAsked::staying(
                self.opening.tell_pointer(self.taken()),
            )),
            Request::GetError => Turn::telling(self, NO_ERRORS),
            Request::SetPlayVol(volume) => self.set_volume(volume),
            Request::GetPlayVol => Turn::telling(self, Answer::Number(self.volume)),
            _ => self.with_run(self.state.asked(PLAY_BIT, request, self.opening)),
        }
    }

    // What a request made of the book's run and of its opening is done to the book.
    fn with_run(self, turn: Turn<RunAsked>) -> Turn<MapBook>
        ensures { result ≡ map_run self turn }
    {
        let book = MapBook {
            opening: turn.book.opening,
            ..self
        };
        Turn {
            book: match turn.book.change {
                RunChange::Stays => book,
                RunChange::Starts => MapBook {
                    state: RunState::Running,
                    ..book
                },
                RunChange::Drops => book.halted(),
            },
            reply: turn.reply,
        }
    }

    fn set_volume(self, volume: u32) -> Turn<MapBook>
        ensures { result ≡ map_set_volume volume self }
    {
        if is_volume(volume) {
            Turn::telling(MapBook { volume, ..self }, Answer::Number(volume))
        } else {
            Turn::refused(self, Errno::Inval)
        }
    }
}

// Such a channel is never short, and records nothing.
const NO_ERRORS: Answer = Answer::Errors {
    underruns: 0,
    overruns: 0,
};
