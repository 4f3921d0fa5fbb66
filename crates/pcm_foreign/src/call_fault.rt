//! Why no engine takes a call.

ghost use Rattle.std.specs.Prelude.{◌≡◌};
ghost use Rattle.pcm_foreign.specs.Answers.{call_fault_number};

use crate::refusals::{NOT_AN_ENGINE, SHORT_ROOM, WORN_OUT, WRONG_ARGUMENT};

/// Why no engine takes a call.
#[derive(Clone, Copy, Debug, PartialEq, Eq)]
pub enum CallFault {
    /// There is no engine, or one already where one is to be made.
    Engine,
    /// A number is outside its limits, or the call came with other bytes or samples than it may.
    Argument,
    /// The engine has no step left for it.
    Worn,
    /// The room for the frames of a hand-over is too small.
    Room,
}

/// The number of such a fault, which is below those of refusals.
pub fn call_fault_number(fault: CallFault) -> i32
    ensures { result ≡ call_fault_number fault }
{
    match fault {
        CallFault::Engine => NOT_AN_ENGINE,
        CallFault::Argument => WRONG_ARGUMENT,
        CallFault::Worn => WORN_OUT,
        CallFault::Room => SHORT_ROOM,
    }
}
