//! Why numbers make no tables.

ghost use Rattle.std.specs.Prelude.{◌≡◌};
ghost use Rattle.pcm_foreign.specs.Answers.{fault_number};

use crate::refusals::{NO_MEMORY, WRONG_ARGUMENT};
use std::alloc::AllocError;

/// Why numbers make no tables.
#[derive(Clone, Copy, Debug, PartialEq, Eq)]
pub enum NumbersFault {
    /// The allocator refused.
    Memory,
    /// A number is outside its limits, or coefficients aren't there.
    Argument,
}

/// The number of a fault, which is below those of refusals.
pub fn fault_number(fault: NumbersFault) -> i32
    ensures { result ≡ fault_number fault }
{
    match fault {
        NumbersFault::Memory => NO_MEMORY,
        NumbersFault::Argument => WRONG_ARGUMENT,
    }
}

impl From<AllocError> for NumbersFault {
    ghost use Rattle.pcm_foreign.specs.declared.fault.NumbersFault.TheVariants.{Memory};

    ghost from_gives = { λ _ fault. fault ≡ Memory };

    fn from(_: AllocError) -> NumbersFault {
        NumbersFault::Memory
    }
}
