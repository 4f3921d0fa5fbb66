//! An engine as bytes, and the engine that goes on as bytes tell.

ghost use Rattle.std.specs.Prelude.{◌≡◌, ◌≤◌, ◌<◌, ◌+◌, ◌*◌, ◌^◌, ℕ, IfErr, IfOk, IsOk, IsOkUnless, drop, length};
ghost use Rattle.pcm_digest.specs.Digests.{digest_of};
ghost use Rattle.pcm_save.specs.Parents.{parent_state, CanParentBeLoaded, FitsParent, HasLoadedParent};
ghost use Rattle.pcm_save.specs.Parts.{HasRow};
ghost use Rattle.pcm_vchan.specs.Parents.{HasRacks};
ghost use Rattle.pcm_vchan.specs.declared.parent.ParentOf.{ParentOf};
ghost use Rattle.pcm_engine.specs.LoadFaults.{AreNamed, IsCause};
ghost use Rattle.pcm_engine.specs.declared.load_fault.LoadFault.TheVariants.{Memory};
ghost use Rattle.pcm_engine.specs.declared.limits.TheConstants.{LIFE};
ghost use Rattle.pcm_feeder.specs.Racks.{list_of};
ghost use Rattle.pcm_engine.specs.Engines.{CanBeMade};
ghost use Rattle.pcm_engine.specs.Loads.{AreInPlace, CanBeJudged, IsMadeFor};
ghost use Rattle.pcm_engine.specs.Saved.{engine_state, head_row, CanBeSaved, HasRacksFor, HasState, IsEngineOf};

use crate::LoadFault;
use crate::counts::{are_in_place, maps_keep_pace, recordings_keep_pace};
use crate::descriptors::{DESCRIPTOR_BYTES, Descriptors};
use crate::engine::{EngineOf, room_for};
use crate::limits::{LIFE, STATE_VERSION};
use crate::load_fault::ordered;
use crate::places::{are_held_or_shut, play_members_wait, record_members_wait};
use crate::tables::copied;
use pcm_chain::PAST_SAMPLES;
use pcm_desk::Device;
use pcm_digest::digest_of;
use pcm_feeder::{Feeder, RacksOf, Tables};
use pcm_save::{load_parent, load_row, parent_size, save_parent};
use pcm_state::put_numbers;
use pcm_vchan::ParentOf;
use std::alloc::Global;

// The numbers of the head, and their bytes.
const HEAD_NUMBERS: usize = 3;

const HEAD_BYTES: usize = 8 * HEAD_NUMBERS;

impl<B: Feeder> EngineOf<B> {
    ghost use Rattle.pcm_engine.specs.Clones.{IsCloneOf};
    ghost use Rattle.pcm_engine.specs.Engines.{AreReady};

    /// How many bytes spell all that the engine keeps: what waits and what was kept, and not what could be.
    pub fn state_size(&self) -> usize
        requires { AreReady B.kind B.kept self.now }
        ensures size { result ≡ length (engine_state B.kept self.now) }
        ensures most { result < 2 ^ 42 }
    {
        HEAD_BYTES + self.descriptors.size() + parent_size(&self.parent)
    }

    /// Spells all that the engine keeps, in as many bytes as `state_size` says. Takes no memory.
    pub fn save(&self, out: &mut [u8])
        requires { CanBeSaved B.kind B.kept out.old self.now }
        ensures state { HasState B.kind B.kept out.new self.now }
        ensures fits { FitsParent self.now.parent }
    {
        let (head, rest) = out.split_at_mut(HEAD_BYTES);
        let digest = digest_of(&self.parent.device, &self.tables);
        put_numbers(&[STATE_VERSION, digest, self.parent.handed], head);
        let (descriptors, parent) = rest.split_at_mut(self.descriptors.size());
        save_parent(&self.parent, parent);
        self.descriptors.save(descriptors);
    }

    /// The engine of a device with its filters that goes on as the bytes tell, which `save` has spelled. Its channels pick their stages from the
    /// racks, one rack a slot; after a refusal the racks are dropped. Whatever the bytes are, the engine is ready. All its memory is taken here.
    // Not inlined: so its engine stands on the stack once while it is made.
    #[inline(never)]
    pub fn load(
        alloc: Global,
        device: Device,
        tables: Tables,
        racks: RacksOf<B>,
        bytes: &[u8],
    ) -> Result<EngineOf<B>, LoadFault>
        requires { CanBeMade B.kind tables device racks }
        ensures state { IfOk result (HasState B.kind B.kept bytes.now) }
        ensures device { IfOk result (IsEngineOf device tables) }
        // Whichever engine of this device and these filters has these bytes, this is its clone.
        ensures clone { IfOk result (λ loaded. (engine : EngineOf B) → IsEngineOf device tables engine → HasState B.kind B.kept bytes.now engine
            → IsCloneOf B.kind B.kept engine loaded) }
        ensures racks { IfOk result (λ loaded. HasRacks B.mark (list_of racks) loaded.parent) }
        ensures cause { IfErr result (IsCause B.kind B.kept device tables bytes.now) }
    {
        let handed = handed_in(&device, &tables, bytes)?;
        let descriptors = Descriptors::load(alloc, &bytes[HEAD_BYTES..])?;
        let mut parent = ParentOf::new(alloc, device, &tables, racks)?;
        load_all(alloc, &mut parent, &tables, handed, &bytes[HEAD_BYTES..])?;
        judge(&parent, &descriptors)?;
        let (captured, answered) = room_for(alloc, &parent.device)?;
        Ok(EngineOf {
            captured,
            answered,
            descriptors,
            tables,
            parent,
        })
    }

    /// The engine that goes on as the bytes tell, of the same device and filters as this one. Nothing of this engine changes.
    pub fn try_load(
        &self,
        alloc: Global,
        racks: RacksOf<B>,
        bytes: &[u8],
    ) -> Result<EngineOf<B>, LoadFault>
        requires { HasRacksFor B.kind B.kept racks self.now }
        ensures state { IfOk result (HasState B.kind B.kept bytes.now) }
        ensures device { IfOk result (IsEngineOf self.now.parent.device self.now.tables) }
        ensures clone { IfOk result (λ loaded. (engine : EngineOf B) → IsEngineOf self.now.parent.device self.now.tables engine
            → HasState B.kind B.kept bytes.now engine → IsCloneOf B.kind B.kept engine loaded) }
        ensures racks { IfOk result (λ loaded. HasRacks B.mark (list_of racks) loaded.parent) }
        ensures cause { IfErr result (IsCause B.kind B.kept self.now.parent.device self.now.tables bytes.now) }
    {
        let tables = copied(alloc, &self.tables)?;
        EngineOf::load(alloc, self.parent.device, tables, racks, bytes)
    }
}

// How many frames were handed over, by the head of a state of this device with these filters.
fn handed_in(device: &Device, tables: &Tables, bytes: &[u8]) -> Result<u64, LoadFault>
    ensures head { IfOk result (λ handed. HasRow bytes.now (head_row (digest_of tables.now device.now) handed)) }
    ensures life { IfOk result (λ handed. handed ≤ LIFE) }
    ensures taken { (handed : ℕ) → HasRow bytes.now (head_row (digest_of tables.now device.now) handed) → handed ≤ LIFE → IsOk result }
    ensures named { AreNamed tables.now device.now bytes.now result }
{
    let mut row = [0; HEAD_NUMBERS];
    load_row(bytes, &mut row)?;
    let [version, digest, handed] = row;
    if version != STATE_VERSION {
        return Err(LoadFault::Foreign);
    }
    if digest != digest_of(device, tables) {
        return Err(LoadFault::Device);
    }
    ordered(handed <= LIFE)?;
    Ok(handed)
}

// A parent that was made new goes on as all bytes behind the descriptors tell.
fn load_all<B: Feeder>(
    alloc: Global,
    parent: &mut ParentOf<B>,
    tables: &Tables,
    handed: u64,
    bytes: &[u8],
) -> Result<(), LoadFault>
    requires made { IsMadeFor B.kind tables.now handed parent.old }
    requires front { DESCRIPTOR_BYTES ≤ length bytes.now }
    ensures loaded { IfOk result (λ _. HasLoadedParent B.kind B.kept B.mark tables.now handed
        (drop DESCRIPTOR_BYTES bytes.now) (length (drop DESCRIPTOR_BYTES bytes.now)) parent.old parent.new) }
    ensures taken { (saved : ParentOf B) → CanParentBeLoaded B.kind B.kept tables.now saved parent.old
        → drop DESCRIPTOR_BYTES bytes.now ≡ parent_state B.kept saved → IsOkUnless result Memory }
{
    let mut past = vec![in alloc; 0i32; PAST_SAMPLES]?;
    let rest = &bytes[DESCRIPTOR_BYTES..];
    let count = load_parent(parent, tables, handed, rest, &mut past)?;
    if count < rest.len() {
        return Err(LoadFault::Long);
    }
    Ok(())
}

// That descriptors, groups and counts are in order, where the mix and the device are.
fn judge<B: Feeder>(parent: &ParentOf<B>, descriptors: &Descriptors) -> Result<(), LoadFault>
    requires { CanBeJudged parent.now }
    ensures place { IfOk result (λ _. AreInPlace parent.now descriptors.now) }
    ensures taken { AreInPlace parent.now descriptors.now → IsOk result }
{
    ordered(are_in_place(&parent.channels, parent.here()))?;
    ordered(recordings_keep_pace(&parent.recorders, parent.handed))?;
    ordered(maps_keep_pace(&parent.maps, parent.mixed))?;
    ordered(are_held_or_shut(parent, descriptors.all_held()))?;
    let groups = descriptors.groups();
    ordered(play_members_wait(&groups.play, &parent.channels))?;
    ordered(record_members_wait(&groups.recording, &parent.recorders))?;
    Ok(())
}
