//! The state of a parent: what goes to the device, and the channels of all slots.

ghost use Rattle.std.specs.Prelude.{◌≡◌, ◌<◌, ◌≤◌, ◌^◌, ◌++◌, ℕ, List, drop, length, IfOk, IsOkAnd};
ghost use Rattle.pcm_chain.specs.declared.past.TheConstants.{PAST_SAMPLES};
ghost use Rattle.pcm_vchan.specs.declared.parent.ParentOf.{ParentOf};
ghost use Rattle.pcm_save.specs.Parents.{parent_state, slots_state, CanLoadParent, CanParentBeLoaded, CanSlotsBeLoaded, FitsParent, HasLoadedParent, HasLoadedSlots, HaveAllBoxes, IsFittedParent, IsWholeParent};

use crate::StateFault;
use crate::output::{load_output, output_size, save_output};
use crate::slots::{load_slots, save_slots, size_slots};
use pcm_feeder::{Feeder, Tables};
use pcm_vchan::ParentOf;

/// How many bytes spell a parent.
pub fn parent_size<B: Feeder>(parent: &ParentOf<B>) -> usize
    requires { IsFittedParent B.kept parent.now }
    ensures size { result ≡ length (parent_state B.kept parent.now) }
    ensures most { result < 2 ^ 41 }
    ensures whole { IsWholeParent parent.now }
{
    let playing = size_slots(&parent.channels);
    let recording = size_slots(&parent.recorders);
    let mapped = size_slots(&parent.maps);
    output_size(parent) + (playing + (recording + mapped))
}

/// Spells a parent.
pub fn save_parent<B: Feeder>(parent: &ParentOf<B>, out: &mut [u8])
    requires fitted { IsFittedParent B.kept parent.now }
    requires size { length out.old ≡ length (parent_state B.kept parent.now) }
    ensures state { out.new ≡ parent_state B.kept parent.now }
    ensures whole { IsWholeParent parent.now }
    ensures fits { FitsParent parent.now }
{
    let (output, slots) = out.split_at_mut(output_size(parent));
    let (playing, rest) = slots.split_at_mut(size_slots(&parent.channels));
    let (recording, mapped) = rest.split_at_mut(size_slots(&parent.recorders));
    save_output(parent, output);
    save_slots(&parent.channels, playing);
    save_slots(&parent.recorders, recording);
    save_slots(&parent.maps, mapped);
}

/// A parent goes on as the front of the bytes tells, where so many frames were handed over. Returns how many bytes these are. The samples
/// are scratch.
pub fn load_parent<B: Feeder>(
    parent: &mut ParentOf<B>,
    tables: &Tables,
    handed: u64,
    bytes: &[u8],
    past: &mut [i32],
) -> Result<usize, StateFault>
    requires { CanLoadParent B.kind tables.now handed past.old parent.old }
    ensures loaded { IfOk result (λ count. HasLoadedParent B.kind B.kept B.mark tables.now handed bytes.now count parent.old parent.new) }
    // What was saved of a parent of its device is taken, and what stands behind it is left.
    ensures taken { (saved : ParentOf B) (rest : List ℕ) → CanParentBeLoaded B.kind B.kept tables.now saved parent.old
        → bytes.now ≡ parent_state B.kept saved ++ rest → IsOkAnd result (λ count. drop count bytes.now ≡ rest) }
{
    let output = load_output(parent, handed, tables, bytes, past)?;
    let slots = load_channels(parent, tables, &bytes[output..], past)?;
    Ok(output + slots)
}

// The channels of all slots go on so.
fn load_channels<B: Feeder>(
    parent: &mut ParentOf<B>,
    tables: &Tables,
    bytes: &[u8],
    past: &mut [i32],
) -> Result<usize, StateFault>
    requires kinds { HaveAllBoxes B.kind parent.old }
    requires room { PAST_SAMPLES ≤ length past.old }
    ensures loaded { IfOk result (λ count. HasLoadedSlots B.kind B.kept B.mark tables.now bytes.now count parent.old parent.new) }
    ensures taken { (saved : ParentOf B) (rest : List ℕ) → CanSlotsBeLoaded B.kind B.kept tables.now saved parent.old
        → bytes.now ≡ slots_state B.kept saved ++ rest → IsOkAnd result (λ count. drop count bytes.now ≡ rest) }
{
    let playing = load_slots(&mut parent.channels, tables, bytes, past)?;
    let rest = &bytes[playing..];
    let recording = load_slots(&mut parent.recorders, tables, rest, past)?;
    let rest = &rest[recording..];
    let mapped = load_slots(&mut parent.maps, tables, rest, past)?;
    Ok(playing + (recording + mapped))
}
