//! Questions in numbers: what can be asked of a session at any time. None is a step, and none changes anything.

ghost use Rattle.std.specs.Prelude.{◌≡◌, ◌^◌, ◌<◌, Ok};
ghost use Rattle.pcm_desk.specs.Device.{unfiltered};
ghost use Rattle.pcm_engine.specs.Engines.{AreReady, desk_of, device_of};
ghost use Rattle.pcm_engine.specs.Views.{is_idle};
ghost use Rattle.pcm_oss.specs.Fragments.{AreFragments};
ghost use Rattle.pcm_session.specs.Questions.{WaitTold, of_descriptor, peek_told, place_among, place_below, ready_bits, ready_told, run_number, settings_numbers, told_settings, slot_numbers, slot_told, slot_state_number, way_number};

use crate::session::SessionOf;
use pcm_desk::{DESCRIPTORS, Device};
use pcm_feeder::Feeder;
use pcm_foreign::{
    AnswerNumbers, BAD_DESCRIPTOR, WRONG_ARGUMENT, numbers_of, refusal_number, request_from,
    way_from,
};
use pcm_oss::Way;
use pcm_status::{ChannelStatus, RunStatus, SlotState, SlotStatus};

/// The status of the channel of a descriptor, in numbers.
#[repr(C)]
#[derive(Clone, Copy, Debug, PartialEq, Eq)]
pub struct SettingsNumbers {
    /// 0 plays, 1 records, 2 is mapped.
    pub way: u32,
    /// The number of its slot.
    pub slot: u32,
    /// The code of its format.
    pub format: u32,
    pub channels: u32,
    pub rate: u32,
    /// How many fragments its ring has, and the bytes of one.
    pub fragments: u32,
    pub fragment_bytes: u32,
    /// 1 where the channel may start by itself or by a post, else 0.
    pub trigger: u32,
    /// left + 256 * right: 0 of one that records.
    pub volume: u32,
    /// 0 is none.
    pub group: u32,
    /// 0 in Setup, 1 primed, 2 running, 3 draining.
    pub state: u32,
}

/// The status of a slot, in numbers.
#[repr(C)]
#[derive(Clone, Copy, Debug, PartialEq, Eq)]
pub struct SlotNumbers {
    /// 0 free, 1 held, 2 draining after a close.
    pub state: u32,
    /// How many frames of the mix it still gives.
    pub frames: u64,
}

impl<B: Feeder> SessionOf<B> {
    /// The status of the channel of a descriptor.
    ///
    /// # Errors
    ///
    /// The number of a wrong argument where there is no such descriptor, and that of a bad one where it isn't open.
    pub fn settings(&self, fd: u32) -> Result<SettingsNumbers, i32>
        requires { AreReady B.kind B.kept self.now.engine }
        ensures { result ≡ told_settings (device_of self.now.engine) (desk_of self.now.engine) fd }
    {
        let fd = descriptor_from(fd)?;
        match pcm_status::client_status(&self.engine, fd) {
            Some(status) => Ok(settings_numbers(&status)),
            None => Err(BAD_DESCRIPTOR),
        }
    }

    /// What a request of the channel of a descriptor would be answered now. The next position still counts fragments from the one answered
    /// before, and no shortage is forgotten.
    ///
    /// # Errors
    ///
    /// The number of the refusal that the request would get, or that of a wrong argument where there is no such descriptor or request.
    pub fn peek(&self, fd: u32, request: u32, argument: u32) -> Result<AnswerNumbers, i32>
        requires { AreReady B.kind B.kept self.now.engine }
        ensures { result ≡ peek_told (device_of self.now.engine) (desk_of self.now.engine) fd request argument }
    {
        let fd = descriptor_from(fd)?;
        let Some(request) = request_from(request, argument) else {
            return Err(WRONG_ARGUMENT);
        };
        match pcm_status::reply_of(&self.engine, fd, request) {
            Ok(answer) => Ok(numbers_of(answer)),
            Err(errno) => Err(refusal_number(errno)),
        }
    }

    /// The status of a slot, by the number of its way and its own.
    ///
    /// # Errors
    ///
    /// The number of a wrong argument where there is no such slot.
    pub fn slot(&self, way: u32, number: u32) -> Result<SlotNumbers, i32>
        requires { AreReady B.kind B.kept self.now.engine }
        ensures { result ≡ slot_told (device_of self.now.engine) (desk_of self.now.engine) way number }
    {
        let Some(way) = way_from(way) else {
            return Err(WRONG_ARGUMENT);
        };
        let Some(place) = place_among(self.engine.device(), number, way) else {
            return Err(WRONG_ARGUMENT);
        };
        Ok(slot_numbers(pcm_status::slot_status(&self.engine, way, place)))
    }

    /// Whether no slot of any way is taken.
    pub fn is_idle(&self) -> bool
        ensures { result ≡ is_idle (desk_of self.now.engine) }
    {
        self.engine.is_idle()
    }

    /// Whether a descriptor is ready: 1 where a byte can be written to it, and 2 where one can be read, else 0.
    ///
    /// # Errors
    ///
    /// The number of a wrong argument where there is no such descriptor.
    pub fn ready(&self, fd: u32) -> Result<u32, i32>
        requires { AreReady B.kind B.kept self.now.engine }
        ensures { result ≡ ready_told (device_of self.now.engine) (desk_of self.now.engine) fd }
    {
        let fd = descriptor_from(fd)?;
        let writable = pcm_status::is_writable(&self.engine, fd);
        let readable = pcm_status::is_readable(&self.engine, fd);
        Ok(ready_bits(writable, readable))
    }

    /// After how many frames of the device a write of `bytes` bytes is taken whole, or as many can be read, if nothing else happens.
    ///
    /// # Errors
    ///
    /// The number of a wrong argument where there is no such descriptor, and else that of the refusal: a descriptor that isn't open, one that is mapped,
    /// or one that can't go on after `FRAMES_MOST` frames either.
    pub fn frames_until(&self, fd: u32, bytes: u32) -> Result<u64, i32>
        requires { AreReady B.kind B.kept self.now.engine }
        ensures { WaitTold (device_of self.now.engine) (desk_of self.now.engine) fd bytes result }
    {
        let fd = descriptor_from(fd)?;
        match pcm_status::frames_until(&self.engine, fd, bytes) {
            Ok(frames) => Ok(frames),
            Err(errno) => Err(refusal_number(errno)),
        }
    }
}

// The descriptor of a number, if there is one.
fn descriptor_from(fd: u32) -> Result<u8, i32>
    ensures { result ≡ of_descriptor fd (Ok fd) }
{
    if (fd as usize) < DESCRIPTORS {
        Ok(fd as u8)
    } else {
        Err(WRONG_ARGUMENT)
    }
}

// The place of a slot among those of its way, by its number.
fn place_among(device: &Device, number: u32, way: Way) -> Option<usize>
    ensures { result ≡ place_among (unfiltered device.now) number way }
{
    match way {
        Way::Play => place_below(number, device.play_slots),
        Way::Record => place_below(number, device.record_slots),
        Way::Map => {
            let place = number.checked_sub(device.play_slots)?;
            place_below(place, device.map_slots)
        }
    }
}

fn place_below(place: u32, slots: u32) -> Option<usize>
    ensures { result ≡ place_below place slots }
{
    if place < slots {
        Some(place as usize)
    } else {
        None
    }
}

fn settings_numbers(status: &ChannelStatus) -> SettingsNumbers
    requires fragments { AreFragments status.now.fragments }
    requires slot { status.now.slot < 2 ^ 32 }
    ensures { result ≡ settings_numbers status.now }
{
    SettingsNumbers {
        way: way_number(status.way),
        slot: status.slot as u32,
        format: status.settings.format.code(),
        channels: status.settings.layout.channels() as u32,
        rate: status.settings.rate,
        fragments: status.fragments.count,
        fragment_bytes: status.fragments.bytes(),
        trigger: u32::from(status.trigger),
        volume: status.volume,
        group: status.group,
        state: run_number(status.run),
    }
}

fn slot_numbers(status: SlotStatus) -> SlotNumbers
    ensures { result ≡ slot_numbers status }
{
    SlotNumbers {
        state: slot_state_number(status.state),
        frames: status.frames,
    }
}

fn ready_bits(writable: bool, readable: bool) -> u32
    ensures { result ≡ ready_bits writable readable }
{
    let write = if writable { 1 } else { 0 };
    let read = if readable { 2 } else { 0 };
    write + read
}

fn way_number(way: Way) -> u32
    ensures { result ≡ way_number way }
{
    match way {
        Way::Play => 0,
        Way::Record => 1,
        Way::Map => 2,
    }
}

fn run_number(run: RunStatus) -> u32
    ensures { result ≡ run_number run }
{
    match run {
        RunStatus::Setup => 0,
        RunStatus::Primed => 1,
        RunStatus::Running => 2,
        RunStatus::Draining => 3,
    }
}

fn slot_state_number(state: SlotState) -> u32
    ensures { result ≡ slot_state_number state }
{
    match state {
        SlotState::Free => 0,
        SlotState::Held => 1,
        SlotState::Closing => 2,
    }
}
