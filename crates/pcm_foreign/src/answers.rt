//! The answer to an event, as numbers.

ghost use Rattle.std.specs.Prelude.{◌≡◌};
ghost use Rattle.pcm_foreign.specs.Answers.{answer_numbers, four, refusal_number};

use crate::refusals::{AGAIN, BAD_DESCRIPTOR, BUSY, EXISTS, INVALID};
use pcm_oss::{Answer, Errno};

/// An answer as numbers, in the order of its fields. Unused numbers are 0.
#[repr(C)]
#[derive(Clone, Copy, Debug, PartialEq, Eq)]
pub struct AnswerNumbers {
    pub first: u64,
    pub second: u64,
    pub third: u64,
    pub fourth: u64,
}

/// The numbers of an answer: of `Number` and `Got` the first alone, of `Done` none.
pub fn numbers_of(answer: Answer) -> AnswerNumbers
    ensures { result ≡ answer_numbers answer }
{
    match answer {
        Answer::Done => four(0, 0, 0, 0),
        Answer::Number(number) => four(u64::from(number), 0, 0, 0),
        Answer::Space {
            fragments,
            fragstotal,
            fragsize,
            bytes,
        } => four(
            u64::from(fragments),
            u64::from(fragstotal),
            u64::from(fragsize),
            u64::from(bytes),
        ),
        Answer::Pointer { bytes, blocks, ptr } => four(bytes, blocks, u64::from(ptr), 0),
        Answer::Errors {
            underruns,
            overruns,
        } => four(u64::from(underruns), u64::from(overruns), 0, 0),
        Answer::Got(count) => four(u64::from(count), 0, 0, 0),
    }
}

fn four(first: u64, second: u64, third: u64, fourth: u64) -> AnswerNumbers
    ensures { result ≡ four first second third fourth }
{
    AnswerNumbers {
        first,
        second,
        third,
        fourth,
    }
}

/// The number of a refusal, which is below 0.
pub fn refusal_number(errno: Errno) -> i32
    ensures { result ≡ refusal_number errno }
{
    match errno {
        Errno::Again => AGAIN,
        Errno::Busy => BUSY,
        Errno::Inval => INVALID,
        Errno::BadF => BAD_DESCRIPTOR,
        Errno::Exist => EXISTS,
    }
}
