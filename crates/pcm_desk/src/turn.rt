//! The outcome of an event.

ghost use Rattle.std.specs.Prelude.{◌≡◌};
ghost use Rattle.pcm_desk.specs.BookTurns.{refused, telling};

use pcm_oss::{Answer, Errno};

/// The book after an event, and the reply. What was refused leaves the book as it was.
#[derive(Clone, Copy, Debug, PartialEq, Eq)]
pub struct Turn<B> {
    pub book: B,
    pub reply: Result<Answer, Errno>,
}

impl<B> Turn<B> {
    /// The book after what was done, and the answer.
    pub fn telling(book: B, answer: Answer) -> Turn<B>
        ensures { result ≡ telling answer book }
    {
        Turn {
            book,
            reply: Ok(answer),
        }
    }

    /// The book as it was, and why nothing was done.
    pub fn refused(book: B, errno: Errno) -> Turn<B>
        ensures { result ≡ refused errno book }
    {
        Turn {
            book,
            reply: Err(errno),
        }
    }
}
