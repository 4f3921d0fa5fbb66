//! What all clients share: the slots of a device, its ring, and the buffers in which a block is mixed.

ghost use Rattle.std.specs.Borrow.{sem};
ghost use Rattle.std.specs.Prelude.{◌≡◌, ◌+◌, ◌*◌, ◌^◌, ◌<◌, ◌≤◌, ◌≤ℤ◌, pos, [], length, All, OnErr, IfOk, take, slice_index_or};
ghost use Rattle.pcm_sequence.specs.Fixed.{fixed_len};
ghost use Rattle.pcm_format.specs.Frames.{frame_bytes};
ghost use Rattle.pcm_format.specs.Layouts.{channels_of};
ghost use Rattle.pcm_feeder.specs.Limits.{IsRate};
ghost use Rattle.pcm_feeder.specs.Racks.{AreRacks, list_of};
ghost use Rattle.pcm_chain.specs.Chains.{IsOfKinds};
ghost use Rattle.pcm_desk.specs.declared.limits.TheConstants.{RING_FRAMES};
ghost use Rattle.pcm_oss.specs.declared.event.TheConstants.{SLOTS};
ghost use Rattle.pcm_mixdev.specs.Mixers.{full_mixer};
ghost use Rattle.pcm_desk.specs.Device.{mixed_slots, passed_for, seen, unfiltered, HasRates};
ghost use Rattle.pcm_group.specs.Groups.{all_in, change_in};
ghost use Rattle.pcm_desk.specs.Channels.{play_starting, record_starting};
ghost use Rattle.pcm_desk.specs.Desk.{slot_number};
ghost use Rattle.pcm_desk.specs.Here.{IsHere};
ghost use Rattle.pcm_desk.specs.PlayBooks.{play_is_ready};
ghost use Rattle.pcm_bus.specs.Slots.{Each, MapAreOf, PlayAreOf};
ghost use Rattle.pcm_vchan.specs.Slots.{slot_place, RecordAreOf};
ghost use Rattle.pcm_play.specs.Channels.{IsPlayHere, MayEndRun, PlayLeaves, SettlesBook};
ghost use Rattle.pcm_bus.specs.Blocks.{silent_ring};
ghost use Rattle.pcm_bus.specs.Handovers.{HasMade, IsPlannedBy};

use crate::recorder::Capture;
use crate::settler::Settling;
use crate::slots::{open_in, resume_all, unopened};
use crate::starter::{GroupStart, are_ready};
use crate::walk::walk;
use pcm_bus::{BusOf, silent_ring};
use pcm_desk::{Device, Here};
use pcm_feeder::{Feeder, RacksOf, Tables};
use pcm_format::Settings;
use pcm_group::Groups;
use pcm_map::MapChannelOf;
use pcm_mixdev::MixDev;
use pcm_oss::{Errno, SLOTS, Way};
use pcm_play::PlayChannelOf;
use pcm_record::RecordChannelOf;
use pcm_ring::ByteRing;
use pcm_sequence::Fixed;
use std::alloc::{AllocError, Global};

/// The channels of a device by slot, those that play, those that record and the mapped ones, its mixer device, the bus from what is played to its
/// ring, which is always full, how many frames the device has been given and how many were mixed, and how many of these have left the ring.
#[derive(Drop)]
pub struct ParentOf<B> {
    pub device: Device,
    pub channels: Fixed<PlayChannelOf<B>>,
    pub recorders: Fixed<RecordChannelOf<B>>,
    pub maps: Fixed<MapChannelOf<B>>,
    pub mixer: MixDev,
    pub bus: BusOf<B>,
    pub ring: ByteRing,
    pub handed: u64,
    pub mixed: u64,
    pub passed: i64,
    ghost rates: { HasRates device },
    ghost bus_of: { bus.device ≡ device },
    ghost passed_is: { passed ≡ passed_for (unfiltered device) handed },
    ghost within: { device.ring_frames ≤ RING_FRAMES },
    ghost slots: { fixed_len channels ≡ device.play_slots },
    ghost maps_count: { fixed_len maps ≡ device.map_slots },
    ghost slots_within: { mixed_slots (unfiltered device) ≤ SLOTS },
    ghost recorders_count: { fixed_len recorders ≡ device.record_slots },
    ghost recorders_within: { device.record_slots ≤ SLOTS },
    ghost size: { ring.size ≡ device.ring_frames * frame_bytes device.settings },
    ghost full: { length ring.bytes ≡ device.ring_frames * frame_bytes device.settings },
}

impl<B: Feeder> ParentOf<B> {
    ghost use Rattle.pcm_oss.specs.declared.event.Way.TheVariants.{Play, Record, Map};
    ghost use Rattle.pcm_vchan.specs.Parents.{map_channels, play_books, play_channels, record_books, record_channels, mixed_in, AreDue, AreMapUnopened, ArePlayUnopened, AreRecordUnopened, AreServed, EachCaptures, EachMapPlays, EachPasses, EachPlayMoves, EachRecordMoves, HasBus, HasLimits, HasRoomFor, KeepsRest, KeepsOutput, OpensMap, OpensPlay, OpensRecord, BusTurns, HasRacks, TotalsFit, here_of};
    ghost use Rattle.pcm_vchan.specs.Clones.{IsParentClone};
    ghost use Rattle.pcm_vchan.specs.Lending.{map_place, LendsChannel, LendsMap, LendsMixer, LendsRecorder};

    /// A device that nobody has opened, whose ring is full of silence. Each slot gets a rack: those that play the first ones, mapped ones
    /// those after them, those that record the ones from the seventeenth on, and the bus the last one.
    pub fn new(
        alloc: Global,
        device: Device,
        tables: &Tables,
        racks: RacksOf<B>,
    ) -> Result<ParentOf<B>, AllocError>
        requires limits { HasLimits device }
        requires kinds { AreRacks B.kind (list_of racks) }
        ensures device { IfOk result (λ made. made.device ≡ device) }
        ensures slots { IfOk result (λ made. length (play_channels made) ≡ device.play_slots) }
        ensures channels { IfOk result (ArePlayUnopened B.kind B.kept tables.now device) }
        ensures maps { IfOk result (λ made. length (map_channels made) ≡ device.map_slots) }
        ensures mapped { IfOk result (AreMapUnopened B.kind B.kept tables.now device) }
        ensures recorders { IfOk result (λ made. length (record_channels made) ≡ device.record_slots) }
        ensures recording { IfOk result (AreRecordUnopened B.kind B.kept tables.now device) }
        ensures planned { IfOk result (λ made. IsPlannedBy (seen tables.now device) made.bus.chain) }
        ensures made { IfOk result (λ made. HasMade B.kept (seen tables.now device) made.bus.chain [] 0) }
        ensures bus_kinds { IfOk result (λ made. IsOfKinds B.kind made.bus.chain) }
        ensures mixer { IfOk result (λ made. made.mixer ≡ full_mixer) }
        ensures ring { IfOk result (λ made. made.ring.bytes ≡ silent_ring (seen tables.now device)) }
        ensures room { IfOk result (λ made. made.ring.max ≡ made.ring.size) }
        ensures handed { IfOk result (λ made. made.handed ≡ 0) }
        ensures mixed { IfOk result (λ made. made.mixed ≡ 0) }
        ensures racks { IfOk result (HasRacks B.mark (list_of racks)) }
    {
        let mut playing = racks.into_list();
        let mut recording = playing.split_off(SLOTS)?;
        let bus = BusOf::new(alloc, device, tables, recording.pop().unwrap())?;
        let mapped = playing.split_off(device.play_slots as usize)?;
        let channels = unopened(alloc, device, tables, playing, device.play_slots as usize)?;
        let maps = unopened(alloc, device, tables, mapped, device.map_slots as usize)?;
        let recorders = unopened(
            alloc,
            device,
            tables,
            recording,
            device.record_slots as usize,
        )?;
        let ring = silent_ring(alloc, device)?;
        Ok(ParentOf {
            device,
            channels,
            recorders,
            maps,
            mixer: MixDev::new(),
            bus,
            ring,
            handed: 0,
            mixed: 0,
            passed: device.passed(0),
        })
    }

    /// A parent that goes on where this one is, with the boxes of other racks: whatever its channels and its bus stand for, those of the clone stand for
    /// too. All memory of the clone is taken here.
    pub fn try_clone(
        &self,
        alloc: Global,
        tables: &Tables,
        racks: RacksOf<B>,
    ) -> Result<ParentOf<B>, AllocError>
        requires limits { HasLimits self.now.device }
        requires kinds { AreRacks B.kind (list_of racks) }
        requires served { AreServed B.kind B.kept tables.now self.now }
        requires bus { HasBus B.kept (seen tables.now self.now.device) self.now }
        ensures clone { IfOk result (IsParentClone B.kind B.kept self.now) }
        ensures racks { IfOk result (HasRacks B.mark (list_of racks)) }
    {
        let mut clone = ParentOf::new(alloc, self.device, tables, racks)?;
        resume_all(&mut clone.channels, &self.channels);
        resume_all(&mut clone.recorders, &self.recorders);
        resume_all(&mut clone.maps, &self.maps);
        clone.mixer.copy_from(&self.mixer);
        clone.bus.resume_from(&self.bus);
        clone.ring.copy_from(&self.ring);
        clone.handed = self.handed;
        clone.mixed = self.mixed;
        clone.passed = self.passed;
        Ok(clone)
    }

    /// An opening begins in the least free slot of its way. Answers the number of this slot: mapped ones are numbered after those that play.
    pub fn open_slot(
        &mut self,
        tables: &Tables,
        way: Way,
        settings: Settings,
    ) -> Result<usize, Errno>
        requires rate { IsRate settings.rate }
        requires served { AreServed B.kind B.kept tables.now self.old }
        ensures play { way ≡ Play → OpensPlay B.kind B.kept tables.now settings self.old self.new result }
        ensures recording { way ≡ Record → OpensRecord B.kind B.kept tables.now settings self.old self.new result }
        ensures mapped { way ≡ Map → OpensMap B.kind B.kept tables.now settings self.old self.new result }
        ensures output { KeepsOutput self.old self.new }
        ensures refused { OnErr result (self.new ≡ self.old) }
    {
        let first = self.number_of(way, 0);
        match way {
            Way::Play => open_in(&mut self.channels, first, tables, settings),
            Way::Record => open_in(&mut self.recorders, first, tables, settings),
            Way::Map => open_in(&mut self.maps, first, tables, settings),
        }
    }

    /// The number of a slot, by its place among those of its way.
    pub fn number_of(&self, way: Way, place: usize) -> usize
        requires { place < SLOTS }
        ensures { result ≡ slot_number self.now.device.play_slots way place }
    {
        match way {
            Way::Play | Way::Record => place,
            Way::Map => self.device.play_slots as usize + place,
        }
    }

    /// The place of a slot among those of its way, by its number.
    pub fn place_of(&self, way: Way, number: usize) -> usize
        requires { way ≡ Map → self.now.device.play_slots ≤ number }
        ensures { result ≡ slot_place self.now.device.play_slots way number }
    {
        match way {
            Way::Play | Way::Record => number,
            Way::Map => number - self.device.play_slots as usize,
        }
    }

    /// Lends the channel of a slot.
    pub fn play(&mut self, slot: usize) -> &mut PlayChannelOf<B>
        requires { slot < fixed_len self.old.channels }
        ensures* writes_back { sem 𝓛 (LendsChannel B.row self.entry slot result) }
        ensures value { result.now ≡ slice_index_or (play_channels self.old) slot result.now }
    {
        &mut self.channels[slot]
    }

    /// Lends the channel of a slot for recording.
    pub fn recorder(&mut self, slot: usize) -> &mut RecordChannelOf<B>
        requires { slot < fixed_len self.old.recorders }
        ensures* writes_back { sem 𝓛 (LendsRecorder B.row self.entry slot result) }
        ensures value { result.now ≡ slice_index_or (record_channels self.old) slot result.now }
    {
        &mut self.recorders[slot]
    }

    /// Lends the mapped channel of a slot, by its number.
    pub fn mapped(&mut self, number: usize) -> &mut MapChannelOf<B>
        requires behind { self.old.device.play_slots ≤ number }
        requires within { number < self.old.device.play_slots + fixed_len self.old.maps }
        ensures* writes_back { sem 𝓛 (LendsMap B.row self.entry number result) }
        ensures value { result.now ≡ slice_index_or (map_channels self.old) (map_place self.old number) result.now }
    {
        let place = number - self.device.play_slots as usize;
        &mut self.maps[place]
    }

    /// Lends the mixer device.
    pub fn mixer(&mut self) -> &mut MixDev
        ensures* writes_back { sem 𝓛 (LendsMixer B.row self.entry result) }
        ensures value { result.now ≡ self.old.mixer }
    {
        &mut self.mixer
    }

    /// Whether each member of a group that plays may start at any moment.
    pub fn is_group_ready(&self, groups: &Groups, group: u32) -> bool
        requires some { 0 < group }
        ensures { result ≡ all_in group play_is_ready groups.now.play (play_books self.now) }
    {
        are_ready(&self.channels, groups, group)
    }

    /// Starts each member of a group, where the mix and the device are.
    pub fn start_group(&mut self, tables: &Tables, groups: &Groups, group: u32, here: Here)
        requires some { 0 < group }
        requires here { IsHere here }
        requires served { AreServed B.kind B.kept tables.now self.old }
        requires places { All (IsPlayHere tables.now here) (play_channels self.old) }
        requires count { TotalsFit self.old }
        ensures own { PlayAreOf self.new.device (play_channels self.new) }
        ensures recorders_own { RecordAreOf self.new.device (record_channels self.new) }
        ensures maps { self.new.maps ≡ self.old.maps }
        ensures output { KeepsOutput self.old self.new }
        ensures books { play_books self.new
            ≡ change_in group (play_starting (seen tables.now self.old.device) here) groups.now.play (play_books self.old) }
        ensures records { record_books self.new
            ≡ change_in group record_starting groups.now.recording (record_books self.old) }
        ensures channels { EachPlayMoves B.kind B.kept tables.now [] 0 self.old self.new }
        ensures recorders { EachRecordMoves B.kind B.kept tables.now [] 0 self.old self.new }
    {
        let start = GroupStart {
            tables,
            groups,
            group,
            here,
        };
        walk(&mut self.channels, &start);
        walk(&mut self.recorders, &start);
    }

    /// The device's interrupt: gives the oldest `n` frames to the device, mixes what the next ones need from all channels that play, at the
    /// gains of the mixer device, and gives `n` captured ones to all that record. Then draining runs end whose last frame has left the ring.
    pub fn interrupt(&mut self, tables: &Tables, n: usize, captured: &[i32], out: &mut [u8])
        requires some { 0 < n }
        requires within { n ≤ self.old.device.ring_frames }
        requires captured { length captured.now ≡ n * channels_of self.old.device.settings.layout }
        requires out { length out.old ≡ n * frame_bytes self.old.device.settings }
        requires due { AreDue B.kind B.kept tables.now n self.old }
        requires counts { HasRoomFor n self.old }
        ensures device { self.new.device ≡ self.old.device }
        ensures mixer { self.new.mixer ≡ self.old.mixer }
        ensures own { PlayAreOf self.new.device (play_channels self.new) }
        ensures slots { length (play_channels self.new) ≡ length (play_channels self.old) }
        ensures channels { EachPlayMoves B.kind B.kept tables.now []
            (mixed_in tables.now n self.old) self.old self.new }
        ensures books { EachPasses tables.now n self.old self.new }
        ensures recorders_own { RecordAreOf self.new.device (record_channels self.new) }
        ensures recorders_slots { length (record_channels self.new) ≡ length (record_channels self.old) }
        ensures recorders { EachCaptures B.kind B.kept tables.now n captured.now self.old self.new }
        ensures maps_own { MapAreOf self.new.device (map_channels self.new) }
        ensures maps_slots { length (map_channels self.new) ≡ length (map_channels self.old) }
        ensures maps { EachMapPlays B.kind B.kept tables.now n self.old self.new }
        ensures handed { self.new.handed ≡ self.old.handed + n }
        ensures mixed { self.new.mixed ≡ self.old.mixed + mixed_in tables.now n self.old }
        ensures out { out.new
            ≡ take (n * frame_bytes self.old.device.settings) self.old.ring.bytes }
        ensures bus { HasBus B.kept (seen tables.now self.old.device) self.new }
        ensures turns { BusTurns B.kept tables.now n self.old self.new }
    {
        let before = self.here();
        let mixed = self.bus.turn(
            tables,
            &mut self.channels,
            &mut self.maps,
            &self.mixer,
            self.handed,
            before,
            n,
            &mut self.ring,
            out,
        );
        let capture = Capture {
            tables,
            device: self.device,
            n,
            captured,
        };
        walk(&mut self.recorders, &capture);
        self.pass(n, mixed);
    }

    // The device has been given `n` frames, and `mixed` were mixed for them: draining runs end whose last frame has left the ring.
    fn pass(&mut self, n: usize, mixed: usize)
        requires handed { self.old.handed + n < 2 ^ 64 }
        requires mixed { self.old.mixed + mixed < 2 ^ 64 }
        requires passed { passed_for (unfiltered self.old.device) (self.old.handed + n) ≤ℤ pos (2 ^ 62) }
        requires due { All (MayEndRun B.kind) (play_channels self.old) }
        ensures others { KeepsRest self.old self.new }
        ensures slots { length (play_channels self.new) ≡ length (play_channels self.old) }
        ensures settled { Each (PlayLeaves B.kind B.kept (SettlesBook (here_of self.new))) (play_channels self.old) (play_channels self.new) }
        ensures handed { self.new.handed ≡ self.old.handed + n }
        ensures mixed { self.new.mixed ≡ self.old.mixed + mixed }
    {
        self.handed += n as u64;
        self.mixed += mixed as u64;
        self.passed = self.device.passed(self.handed);
        let here = self.here();
        walk(&mut self.channels, &Settling { here });
    }

    /// How many frames were mixed so far.
    pub fn mixed(&self) -> u64
        ensures { result ≡ self.now.mixed }
    {
        self.mixed
    }

    /// Where the mix and the device are.
    pub fn here(&self) -> Here
        ensures { result ≡ here_of self.now }
    {
        Here {
            mixed: self.mixed,
            passed: self.passed,
        }
    }
}

/// A parent whose channels have boxes.
pub type Parent = ParentOf<Box<dyn Feeder>>;
