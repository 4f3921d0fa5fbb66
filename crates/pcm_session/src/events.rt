//! The events of calls in numbers. Where the numbers name none, there is no event.

ghost use Rattle.std.specs.Prelude.{◌≡◌};
ghost use Rattle.pcm_session.specs.Events.{event_for_close, descriptor_from, event_for_ioctl, event_for_join, length_from, event_for_mixer, event_for_open, event_for_poke, event_for_read, event_for_start, event_for_write};

use pcm_desk::{DESCRIPTORS, READ_BYTES};
use pcm_foreign::{mix_request_from, request_from, settings_from, way_from};
use pcm_oss::Event;
use pcm_wave::Source;

#[tactic(auto, unfolding(crate::specs::Events::event_for_open))]
pub fn event_for_open(fd: u32, way: u32, format: u32, channels: u32, rate: u32) -> Option<Event>
    ensures { result ≡ event_for_open fd way format channels rate }
{
    let fd = descriptor_from(fd)?;
    let way = way_from(way)?;
    let settings = settings_from(format, channels, rate)?;
    Some(Event::Open { fd, way, settings })
}

#[tactic(auto, unfolding(crate::specs::Events::event_for_write))]
pub fn event_for_write(fd: u32, length: usize) -> Option<Event>
    ensures { result ≡ event_for_write fd length }
{
    let fd = descriptor_from(fd)?;
    let len = length_from(length)?;
    Some(Event::Write {
        fd,
        source: Source::Inline,
        at: 0,
        len,
    })
}

#[tactic(auto, unfolding(crate::specs::Events::event_for_poke))]
pub fn event_for_poke(fd: u32, offset: u32, length: usize) -> Option<Event>
    ensures { result ≡ event_for_poke fd offset length }
{
    let fd = descriptor_from(fd)?;
    let len = length_from(length)?;
    Some(Event::Poke {
        fd,
        offset,
        at: 0,
        len,
    })
}

/// A read of as many bytes as there is room for, and no more than a read may ask for.
#[tactic(auto, unfolding(crate::specs::Events::event_for_read))]
pub fn event_for_read(fd: u32, room: usize) -> Option<Event>
    ensures { result ≡ event_for_read fd room }
{
    let fd = descriptor_from(fd)?;
    let len = room.min(READ_BYTES as usize) as u32;
    Some(Event::Read { fd, len })
}

#[tactic(auto, unfolding(crate::specs::Events::event_for_ioctl))]
pub fn event_for_ioctl(fd: u32, request: u32, argument: u32) -> Option<Event>
    ensures { result ≡ event_for_ioctl fd request argument }
{
    let fd = descriptor_from(fd)?;
    let request = request_from(request, argument)?;
    Some(Event::Ioctl { fd, request })
}

#[tactic(auto, unfolding(crate::specs::Events::event_for_join))]
pub fn event_for_join(fd: u32, group: u32) -> Option<Event>
    ensures { result ≡ event_for_join fd group }
{
    let fd = descriptor_from(fd)?;
    Some(Event::Join { fd, group })
}

#[tactic(auto, unfolding(crate::specs::Events::event_for_start))]
pub fn event_for_start(fd: u32, group: u32) -> Option<Event>
    ensures { result ≡ event_for_start fd group }
{
    let fd = descriptor_from(fd)?;
    Some(Event::StartGroup { fd, group })
}

#[tactic(auto, unfolding(crate::specs::Events::event_for_close))]
pub fn event_for_close(fd: u32) -> Option<Event>
    ensures { result ≡ event_for_close fd }
{
    let fd = descriptor_from(fd)?;
    Some(Event::Close { fd })
}

#[tactic(auto, unfolding(crate::specs::Events::event_for_mixer))]
pub fn event_for_mixer(request: u32, slot: u32, value: u32) -> Option<Event>
    ensures { result ≡ event_for_mixer request slot value }
{
    let request = mix_request_from(request, slot, value)?;
    Some(Event::Mixer { request })
}

fn descriptor_from(fd: u32) -> Option<u8>
    ensures { result ≡ descriptor_from fd }
{
    if fd < DESCRIPTORS as u32 {
        Some(fd as u8)
    } else {
        None
    }
}

// How many bytes a call brings, if an event can name as many.
fn length_from(length: usize) -> Option<u32>
    ensures { result ≡ length_from length }
{
    if length <= u32::MAX as usize {
        Some(length as u32)
    } else {
        None
    }
}
