//! What can be seen of an engine without a step: who holds what, each book, and the rates between the sides.

ghost use Rattle.std.specs.Prelude.{◌≡◌, ◌+◌, ◌*◌, ◌^◌, ◌<◌, ◌≤◌, ◌&&◌, length};
ghost use Rattle.pcm_format.specs.Frames.{frame_bytes};
ghost use Rattle.pcm_feeder.specs.Limits.{IsRate};
ghost use Rattle.pcm_oss.specs.declared.event.TheConstants.{SLOTS};
ghost use Rattle.pcm_oss.specs.declared.fragments.TheConstants.{RING_BYTES};
ghost use Rattle.pcm_engine.specs.declared.limits.TheConstants.{LIFE};
ghost use Rattle.pcm_desk.specs.declared.limits.TheConstants.{DESCRIPTORS};
ghost use Rattle.pcm_desk.specs.Device.{parent_rate, record_slots};
ghost use Rattle.pcm_desk.specs.Channels.{play_rate_at, record_rate_at};
ghost use Rattle.pcm_desk.specs.Desk.{desk_here, group_of, held_by, map_at, play_at, record_at, slot_number};
ghost use Rattle.pcm_desk.specs.Here.{IsHere};
ghost use Rattle.pcm_desk.specs.PlayBooks.{is_play_free};
ghost use Rattle.pcm_desk.specs.RunStates.{is_unheld};
ghost use Rattle.std.specs.List.{list_all};
ghost use Rattle.pcm_vchan.specs.Parents.{map_channels, play_channels, record_channels};
ghost use Rattle.pcm_engine.specs.Engines.{AreReady, desk_of, device_of};
ghost use Rattle.pcm_engine.specs.Views.{is_idle, HasMapSlot, HasPlaySlot, HasPlayTaken, HasRecordTaken, IsPlanRate};

use crate::engine::EngineOf;
use pcm_desk::{Held, Here, MapBook, PlayBook, RecordBook};
use pcm_feeder::Feeder;
use pcm_oss::Way;
use pcm_rate::Rate;

impl<B: Feeder> EngineOf<B> {
    /// What a descriptor holds, if it is open.
    pub fn held(&self, fd: u8) -> Option<Held>
        requires { fd < DESCRIPTORS }
        ensures { result ≡ held_by (desk_of self.now) fd }
    {
        self.descriptors.held(fd)
    }

    /// The number of a slot, by its place among those of its way.
    pub fn number_of(&self, way: Way, place: usize) -> usize
        requires { place < SLOTS }
        ensures { result ≡ slot_number (length (desk_of self.now).play) way place }
    {
        self.parent.number_of(way, place)
    }

    /// Whether no slot of any way is taken: nothing plays, records or drains.
    pub fn is_idle(&self) -> bool
        ensures { result ≡ is_idle (desk_of self.now) }
    {
        are_all(self.plays_none(), self.records_none(), self.maps_none())
    }

    fn plays_none(&self) -> bool
        ensures { result ≡ list_all (λ channel. is_play_free channel.book.state) (play_channels self.now.parent) }
    {
        self.parent.channels.iter().all(|channel| channel.is_free())
    }

    fn records_none(&self) -> bool
        ensures { result ≡ list_all (λ channel. is_unheld channel.book.state) (record_channels self.now.parent) }
    {
        self.parent
            .recorders
            .iter()
            .all(|channel| channel.is_free())
    }

    fn maps_none(&self) -> bool
        ensures { result ≡ list_all (λ channel. is_unheld channel.book.state) (map_channels self.now.parent) }
    {
        self.parent.maps.iter().all(|channel| channel.is_free())
    }

    /// The group of a channel: 0 is none.
    pub fn group_of(&self, held: Held) -> u32
        ensures { result ≡ group_of (desk_of self.now) held }
    {
        self.descriptors.groups().of(held.way, held.slot)
    }

    /// The book of a slot that plays.
    pub fn play_book(&self, slot: usize) -> PlayBook
        requires { HasPlaySlot B.kind B.kept self.now slot }
        ensures is { result ≡ play_at (device_of self.now) (desk_of self.now) slot }
        ensures client { IsRate result.opening.settings.rate }
        ensures eaten { result.eaten * frame_bytes result.opening.settings ≤ result.written }
        ensures counted { result.done + result.written < 2 ^ 63 }
        ensures given { result.given < 2 ^ 53 }
    {
        self.parent.channels[slot].book
    }

    /// The book of a slot that records.
    pub fn record_book(&self, slot: usize) -> RecordBook
        requires { slot < record_slots (device_of self.now) }
        ensures is { result ≡ record_at (device_of self.now) (desk_of self.now) slot }
        ensures captured { result.captured ≤ LIFE }
        ensures kept { result.kept ≤ RING_BYTES * LIFE }
    {
        self.parent.recorders[slot].book
    }

    /// The book of a mapped slot, by its place among these.
    pub fn map_book(&self, place: usize) -> MapBook
        requires { HasMapSlot B.kind B.kept self.now place }
        ensures is { result ≡ map_at (device_of self.now) (desk_of self.now) place }
        ensures taken { result.eaten * frame_bytes result.opening.settings < 2 ^ 64 }
    {
        self.parent.maps[place].book
    }

    /// The rate between a slot that plays and the mix: that of a slot which isn't free.
    pub fn play_rate(&self, slot: usize) -> Rate
        requires { HasPlayTaken B.kind B.kept self.now slot }
        ensures { IsPlanRate (play_rate_at (device_of self.now) (play_at (device_of self.now) (desk_of self.now) slot)) result }
    {
        self.parent.channels[slot].path.chain.plan().rate()
    }

    /// The rate between the device and a slot that records: that of a slot which isn't free.
    pub fn record_rate(&self, slot: usize) -> Rate
        requires { HasRecordTaken B.kind B.kept self.now slot }
        ensures { IsPlanRate (record_rate_at (device_of self.now) (record_at (device_of self.now) (desk_of self.now) slot)) result }
    {
        self.parent.recorders[slot].path.chain.plan().rate()
    }

    /// The rate between the mix and the device.
    pub fn parent_rate(&self) -> Rate
        requires ready { AreReady B.kind B.kept self.now }
        ensures { IsPlanRate (parent_rate (device_of self.now)) result }
    {
        self.parent.bus.chain.plan().rate()
    }

    /// How many frames the device has been given.
    pub fn handed(&self) -> u64
        ensures is { result ≡ (desk_of self.now).handed }
        ensures within { result ≤ LIFE }
    {
        self.parent.handed
    }

    /// Where the mix and the device are.
    pub fn here(&self) -> Here
        requires ready { AreReady B.kind B.kept self.now }
        ensures is { result ≡ desk_here (device_of self.now) (desk_of self.now) }
        ensures within { IsHere result }
        ensures mixed { result.mixed < 2 ^ 53 }
    {
        self.parent.here()
    }
}

fn are_all(one: bool, other: bool, third: bool) -> bool
    ensures { result ≡ (one && (other && third)) }
{
    one && other && third
}
