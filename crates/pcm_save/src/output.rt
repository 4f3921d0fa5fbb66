//! The state of what goes to the device: the mixer device, the device's ring, and what the bus keeps of the past.

ghost use Rattle.std.specs.Prelude.{◌≡◌, ◌<◌, ◌^◌, ◌++◌, ℕ, List, drop, length, IfOk, IsOkAnd};
ghost use Rattle.pcm_chain.specs.Chains.{AreFitted};
ghost use Rattle.pcm_state.specs.MixerRows.{FitsMixer};
ghost use Rattle.pcm_vchan.specs.declared.parent.ParentOf.{ParentOf};
ghost use Rattle.pcm_save.specs.Outputs.{output_state, CanOutputBeLoaded, CanTellBus, HasLoadedOutput};

use crate::StateFault;
use crate::front::{load_past, load_row, part};
use crate::past::{past_size, put_past};
use pcm_feeder::{Feeder, Tables};
use pcm_state::{MIXER_NUMBERS, mixer_from_row, mixer_row, put_numbers};
use pcm_vchan::ParentOf;

// The bytes of the mixer device.
const MIXER_BYTES: usize = 8 * MIXER_NUMBERS;

/// How many bytes spell what goes to the device.
pub(crate) fn output_size<B: Feeder>(parent: &ParentOf<B>) -> usize
    requires { AreFitted B.kept parent.now.bus.chain }
    ensures size { result ≡ length (output_state B.kept parent.now) }
    ensures most { result < 2 ^ 40 }
    ensures mixer { FitsMixer parent.now.mixer }
{
    let row = mixer_row(&parent.mixer);
    8 * row.len() + parent.ring.fill() + past_size(false, &parent.bus.chain)
}

/// Spells what goes to the device.
pub(crate) fn save_output<B: Feeder>(parent: &ParentOf<B>, out: &mut [u8])
    requires fitted { AreFitted B.kept parent.now.bus.chain }
    requires size { length out.old ≡ length (output_state B.kept parent.now) }
    ensures state { out.new ≡ output_state B.kept parent.now }
    ensures mixer { FitsMixer parent.now.mixer }
{
    let row = mixer_row(&parent.mixer);
    let (front, rest) = out.split_at_mut(8 * row.len());
    let (waiting, past) = rest.split_at_mut(parent.ring.fill());
    put_numbers(&row, front);
    parent.ring.copy_to(waiting);
    put_past(false, &parent.bus.chain, past);
}

/// What goes to the device goes on as the front of the bytes tells, where so many frames were handed over. Returns how many bytes these are.
pub(crate) fn load_output<B: Feeder>(
    parent: &mut ParentOf<B>,
    handed: u64,
    tables: &Tables,
    bytes: &[u8],
    past: &mut [i32],
) -> Result<usize, StateFault>
    requires { CanTellBus B.kind tables.now handed past.old parent.old }
    ensures loaded { IfOk result (λ count. HasLoadedOutput B.kind B.kept B.mark tables.now handed bytes.now count parent.old parent.new) }
    ensures taken { (saved : ParentOf B) (rest : List ℕ) → CanOutputBeLoaded B.kept tables.now saved parent.old
        → bytes.now ≡ output_state B.kept saved ++ rest → IsOkAnd result (λ count. drop count bytes.now ≡ rest) }
{
    let mut row = [0; MIXER_NUMBERS];
    load_row(bytes, &mut row)?;
    let mixer = mixer_from_row(&row).ok_or(StateFault::Unspelled)?;
    let waiting = part(bytes, MIXER_BYTES, parent.ring.fill())?;
    let at = MIXER_BYTES + waiting.len();
    let past = &mut past[..parent.bus.chain.past_size()];
    load_past(bytes, at, past)?;
    parent.mixer = mixer;
    parent.ring.clear();
    parent.ring.put(waiting);
    let plan = parent.bus.chain.plan().copy();
    let (mixed, passed) = (plan.need(handed) as u64, parent.device.passed(handed));
    parent.bus.chain.tell(&plan, mixed, handed, past);
    parent.handed = handed;
    parent.mixed = mixed;
    parent.passed = passed;
    Ok(at + 4 * past.len())
}
