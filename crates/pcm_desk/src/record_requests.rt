//! What a client asks of a channel that records, as changes of its book and answers.

ghost use Rattle.std.specs.Prelude.{◌≡◌};
ghost use Rattle.pcm_desk.specs.RecordSafe.{IsRecordCounted};
ghost use Rattle.pcm_desk.specs.RecordRequests.{record_ask, record_run, record_tell_errors};

use crate::run_requests::{RunAsked, RunChange};
use crate::{RECORD_BIT, RecordBook, RunState, Turn};
use pcm_oss::{Answer, Request};

impl RecordBook {
    /// The book after a request of a channel that records, and the reply. What is asked of channels that play alone is refused.
    pub fn asked(self, request: Request) -> Turn<RecordBook>
        requires { IsRecordCounted self }
        ensures { result ≡ record_ask request self }
    {
        match request {
            Request::GetISpace => Turn::telling(self, self.opening.space(self.fill() as u32)),
            Request::GetIPtr => self.with_run(RunAsked::staying(
                self.opening.tell_pointer(self.kept),
            )),
            Request::GetError => self.tell_errors(),
            _ => self.with_run(self.state.asked(RECORD_BIT, request, self.opening)),
        }
    }

    // What a request made of the book's run and of its opening is done to the book.
    fn with_run(self, turn: Turn<RunAsked>) -> Turn<RecordBook>
        ensures { result ≡ record_run self turn }
    {
        let book = RecordBook {
            opening: turn.book.opening,
            ..self
        };
        Turn {
            book: match turn.book.change {
                RunChange::Stays => book,
                RunChange::Starts => RecordBook {
                    state: RunState::Running,
                    ..book
                },
                RunChange::Drops => book.dropped(),
            },
            reply: turn.reply,
        }
    }

    fn tell_errors(self) -> Turn<RecordBook>
        ensures { result ≡ record_tell_errors self }
    {
        let errors = Answer::Errors {
            underruns: 0,
            overruns: self.overruns,
        };
        Turn::telling(
            RecordBook {
                overruns: 0,
                ..self
            },
            errors,
        )
    }
}
