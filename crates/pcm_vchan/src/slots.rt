//! What the slots of one way hold, whichever way that is: a channel each, and an opening begins in the least free one.

ghost use Rattle.std.specs.Prelude.{◌≡◌, ◌+◌, ◌<◌, ◌≤◌, take, vec_len, All, IfOk, IfSome, OnErr, position};
ghost use Rattle.pcm_sequence.specs.Fixed.{fixed_items, fixed_len};
ghost use Rattle.pcm_feeder.specs.Limits.{IsRate};
ghost use Rattle.pcm_feeder.specs.Racks.{AreRacks, rack_marks};
ghost use Rattle.pcm_oss.specs.declared.event.TheConstants.{SLOTS};
ghost use Rattle.pcm_desk.specs.Device.{HasRates};
ghost use Rattle.pcm_path.specs.Paths.{HasBoxes};
ghost use Rattle.pcm_path.specs.Resumes.{CanResumeChannel};
ghost use Rattle.pcm_bus.specs.Slots.{Each};
ghost use Rattle.pcm_vchan.specs.Clones.{SlotsResume};
ghost use Rattle.pcm_vchan.specs.Openings.{BeginsIn, slot_or_busy};
ghost use Rattle.pcm_vchan.specs.Racks.{channel_marks};

use pcm_desk::Device;
use pcm_feeder::{Feeder, RackOf, Tables};
use pcm_format::Settings;
use pcm_oss::Errno;
use pcm_path::{Channel, Made};
use pcm_sequence::Fixed;
use std::alloc::Global;

/// The slots of a device: as many channels that nobody has opened, with the first racks.
pub(crate) fn unopened<B: Feeder, C: Channel<B>>(
    alloc: Global,
    device: Device,
    tables: &Tables,
    racks: Vec<RackOf<B>>,
    count: usize,
) -> Made<Fixed<C>>
    requires device { HasRates device }
    requires enough { count ≤ vec_len racks }
    requires kinds { AreRacks B.kind racks.items }
    ensures slots { IfOk result (λ made. fixed_len made ≡ count) }
    ensures boxes { IfOk result (λ made. channel_marks C.path B.mark (fixed_items made) ≡ rack_marks B.mark (take count racks.items)) }
    ensures channels { IfOk result (λ made. All (C.is_unopened tables.now device) (fixed_items made)) }
{
    let mut racks = racks;
    racks.truncate(count);
    let mut channels = Vec::new(alloc);
    for rack in racks {
        channels.push(C::new(alloc, device, tables, rack)?)?;
    }
    Ok(Fixed::new(channels))
}

/// An opening begins in the least free slot. Answers the number of this slot, where they are numbered from `first` on.
pub(crate) fn open_in<B: Feeder, C: Channel<B>>(
    channels: &mut Fixed<C>,
    first: usize,
    tables: &Tables,
    settings: Settings,
) -> Result<usize, Errno>
    requires rate { IsRate settings.rate }
    requires few { first + fixed_len channels.old ≤ SLOTS }
    requires kinds { All (λ channel. HasBoxes B.kind (C.path channel)) (fixed_items channels.old) }
    ensures told { result
        ≡ slot_or_busy (λ place. first + place) (position C.is_free (fixed_items channels.old)) }
    ensures begins { BeginsIn (C.begins tables.now settings) (position C.is_free (fixed_items channels.old))
        (fixed_items channels.old) (fixed_items channels.new) }
    ensures len { fixed_len channels.new ≡ fixed_len channels.old }
    ensures refused { OnErr result (channels.new ≡ channels.old) }
{
    let Some(slot) = least_free(channels) else {
        return Err(Errno::Busy);
    };
    channels[slot].begin(tables, settings);
    Ok(first + slot)
}

/// In each slot the channel goes on where that of the slot is among others, of the same device.
pub(crate) fn resume_all<B: Feeder, C: Channel<B>>(channels: &mut Fixed<C>, others: &Fixed<C>)
    requires count { fixed_len others.now ≡ fixed_len channels.old }
    requires can { Each (CanResumeChannel C.path C.is_free B.kind B.kept) (fixed_items others.now) (fixed_items channels.old) }
    ensures len { fixed_len channels.new ≡ fixed_len channels.old }
    ensures resumed { SlotsResume C.path C.stands_as B.kind B.mark
        (fixed_items others.now) (fixed_items channels.old) (fixed_items channels.new) }
{
    for slot in 0..others.iter().len() {
        channels[slot].resume_from(&others[slot]);
    }
}

// The least slot whose channel is free, if there is one.
fn least_free<B: Feeder, C: Channel<B>>(channels: &Fixed<C>) -> Option<usize>
    ensures slot { result ≡ position C.is_free (fixed_items channels.now) }
    ensures within { IfSome result (λ slot. slot < fixed_len channels.now) }
{
    channels.iter().position(|channel| channel.is_free())
}
