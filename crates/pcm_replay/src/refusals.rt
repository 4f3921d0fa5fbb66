//! How a call ends whose words match no form: with the line of all forms.

ghost use Rattle.pcm_replay.specs.Outcomes.{TellsForms};

use pcm_inputs::{Ending, usage_line};
use pcm_outside::{Sink, WriteFault};

/// Puts the forms, and answers how the call ends then. It takes no memory.
pub fn refuse_words<K: Sink>(out: &mut K) -> Ending
    ensures { TellsForms result (K.seen out.old) (K.seen out.new) }
{
    match out.put(usage_line().as_bytes()) {
        Ok(()) => Ending::Usage,
        Err(WriteFault) => Ending::CannotWrite,
    }
}
