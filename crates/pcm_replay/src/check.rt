//! What is reported of a script that is judged and not run.

ghost use Rattle.std.specs.Prelude.{IfErr, OnOk};
ghost use Rattle.pcm_outside.specs.Sink.{Puts};
ghost use Rattle.pcm_verdict.specs.Outputs.{check_line};
ghost use Rattle.pcm_inputs.specs.Faults.{CutsLines};
ghost use Rattle.pcm_inputs.specs.Parts.{inputs_seen};

use pcm_inputs::{Ending, Inputs};
use pcm_outside::{Sink, WriteFault};
use std::alloc::Global;

/// Reports how many events a script has, and how many frames its interrupts take.
pub fn tell_script<K: Sink>(alloc: Global, inputs: &Inputs, out: &mut K) -> Result<(), Ending>
    ensures ok { OnOk result (Puts (K.seen out.old) (K.seen out.new) (check_line (inputs_seen inputs.now))) }
    ensures err { IfErr result (CutsLines (check_line (inputs_seen inputs.now)) (K.seen out.old) (K.seen out.new)) }
{
    let events = inputs.script.events.as_slice().len();
    let frames = inputs.script.device_frames;
    let Ok(line) = format!(in alloc; "events {events} frames {frames}\n") else {
        return Err(Ending::NoMemory);
    };
    match out.put(line.as_bytes()) {
        Ok(()) => Ok(()),
        Err(WriteFault) => Err(Ending::CannotWrite),
    }
}
