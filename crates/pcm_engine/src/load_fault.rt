//! Why bytes make no engine.

ghost use Rattle.std.specs.Prelude.{◌≡◌, true, IfOk, IsOk};

use pcm_save::StateFault;
use std::alloc::AllocError;

/// Why bytes make no engine.
#[derive(Clone, Copy, Debug, PartialEq, Eq)]
pub enum LoadFault {
    /// The allocator refused.
    Memory,
    /// They don't begin as a state of this version.
    Foreign,
    /// They are of another device, or of one with other filters or sections.
    Device,
    /// They end too early.
    Short,
    /// They go on after the end of the state.
    Long,
    /// A number stands for nothing.
    Unspelled,
    /// Counts contradict each other.
    OutOfOrder,
}

impl From<AllocError> for LoadFault {
    ghost use Rattle.std.specs.Prelude.{◌≡◌};
    ghost use Rattle.pcm_engine.specs.declared.load_fault.LoadFault.TheVariants.{Memory};

    ghost from_gives = { λ _ fault. fault ≡ Memory };

    fn from(_: AllocError) -> LoadFault {
        LoadFault::Memory
    }
}

impl From<StateFault> for LoadFault {
    ghost use Rattle.std.specs.Prelude.{◌≡◌};
    ghost use Rattle.pcm_engine.specs.LoadFaults.{whole_fault};

    ghost from_gives = { λ fault load. load ≡ whole_fault fault };

    fn from(fault: StateFault) -> LoadFault {
        match fault {
            StateFault::Short => LoadFault::Short,
            StateFault::Unspelled => LoadFault::Unspelled,
            StateFault::OutOfOrder => LoadFault::OutOfOrder,
        }
    }
}

/// That what was judged is in order.
pub(crate) fn ordered(is: bool) -> Result<(), LoadFault>
    ensures passed { IfOk result (λ _. is ≡ true) }
    ensures taken { is ≡ true → IsOk result }
{
    if is {
        Ok(())
    } else {
        Err(LoadFault::OutOfOrder)
    }
}
