//! How a call that is refused for a fault ends: with one line.

ghost use Rattle.std.specs.Prelude.{◌≡◌};
ghost use Rattle.pcm_inputs.specs.Faults.{TellsFault, ending_of, fault_seen};

use crate::ending::Ending;
use crate::fault::{Fault, line_of};
use pcm_outside::{Sink, WriteFault};
use std::alloc::Global;

/// Puts the line of a fault, and answers how the call ends then.
pub fn refuse<K: Sink>(alloc: Global, fault: Fault<'_>, out: &mut K) -> Ending
    ensures { TellsFault (fault_seen fault.entry) result (K.seen out.old) (K.seen out.new) }
{
    let Ok(line) = line_of(alloc, fault) else {
        return Ending::NoMemory;
    };
    match out.put(line.as_bytes()) {
        Ok(()) => ending_of(fault),
        Err(WriteFault) => Ending::CannotWrite,
    }
}

// How a call ends that is refused for a fault.
fn ending_of(fault: Fault<'_>) -> Ending
    ensures { result ≡ ending_of (fault_seen fault.entry) }
{
    match fault {
        Fault::CannotRead(_) => Ending::CannotRead,
        Fault::BadConfig(_) => Ending::BadConfig,
        Fault::BadWave(_, _) => Ending::BadWave,
        Fault::BadScript(_) => Ending::BadScript,
    }
}
