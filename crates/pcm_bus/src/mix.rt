//! One block of the mix, from all channels in the order of their slots, and the ring that takes what comes of it.

ghost use Rattle.std.specs.Prelude.{◌≡◌, ◌+◌, ◌*◌, ◌^◌, ◌<◌, ◌≤◌, length, take, All, IfOk};
ghost use Rattle.pcm_sequence.specs.Fixed.{fixed_items, fixed_len};
ghost use Rattle.pcm_num.specs.Limit.{FitsBits};
ghost use Rattle.pcm_format.specs.Formats.{bits_of};
ghost use Rattle.pcm_format.specs.Layouts.{channels_of};
ghost use Rattle.pcm_format.specs.Frames.{frame_bytes};
ghost use Rattle.pcm_desk.specs.declared.limits.TheConstants.{RING_FRAMES};
ghost use Rattle.pcm_oss.specs.declared.event.TheConstants.{SLOTS};
ghost use Rattle.pcm_desk.specs.Device.{unfiltered};
ghost use Rattle.pcm_path.specs.Paths.{HoldBlock};
ghost use Rattle.pcm_bus.specs.Slots.{AreMixDue, AreLeft, MapMixes, PlayMixes};
ghost use Rattle.pcm_bus.specs.Blocks.{map_gains, silent_ring, turned_ring, Added, MixesBlock};

use pcm_desk::{Device, Here};
use pcm_feeder::{Feeder, Gain, Tables, apply_gain};
use pcm_format::{Settings, spell_frames};
use pcm_map::MapChannelOf;
use pcm_mixdev::MixDev;
use pcm_play::PlayChannelOf;
use pcm_ring::ByteRing;
use pcm_sequence::Fixed;
use std::alloc::{AllocError, Global};

/// A channel that is mixed, whichever way it goes.
pub(crate) trait Mixed<B: Feeder>: Drop {
    ghost use Rattle.std.specs.Prelude.{◌+◌, ◌^◌, ◌<◌, ℕ, ℤ, List, All};
    ghost use Rattle.pcm_num.specs.Limit.{FitsBits};
    ghost use Rattle.pcm_format.specs.Formats.{bits_of};
    ghost use Rattle.pcm_feeder.specs.declared.stage.Gain.{Gain};
    ghost use Rattle.pcm_feeder.specs.Filters.{Filters};
    ghost use Rattle.pcm_desk.specs.declared.device.Device.{Device};
    ghost use Rattle.pcm_path.specs.Paths.{CanAdd};

    // It is of a device, and ready for an interrupt that mixes so many frames.
    ghost is_due: { Filters → Device → ℕ → Self → Type 0 };

    // What that leaves of it, after so many frames before.
    ghost leaves: { Filters → Device → ℕ → ℕ → Self → Self → Type 0 };

    // What it makes of a block of so many frames, at a gain.
    ghost adds: { Filters → Device → ℕ → Gain → List ℤ → List ℤ → Self → Type 0 };

    fn mix_in(
        &mut self,
        device: Device,
        tables: &Tables,
        gain: Gain,
        here: Here,
        n: usize,
        frames: &mut [i32],
        sum: &mut [i32],
    )
        requires adds { CanAdd device n gain frames.old sum.old }
        requires mixed { here.mixed + n < 2 ^ 64 }
        requires due { is_due tables.now device n self.old }
        ensures left { leaves tables.now device here.mixed n self.old self.new }
        ensures adds { adds tables.now device n gain sum.old sum.new self.old }
        ensures fits { All (FitsBits (bits_of device.mix.format)) sum.new };
}

impl<B: Feeder> Mixed<B> for PlayChannelOf<B> {
    ghost use Rattle.pcm_play.specs.Channels.{AddsTo};
    ghost use Rattle.pcm_bus.specs.Slots.{IsPlayDue, PlayMixes};

    ghost is_due = { IsPlayDue B.kind B.kept };

    ghost leaves = { PlayMixes B.kind B.kept };

    ghost adds = { AddsTo B.kept };

    fn mix_in(
        &mut self,
        _device: Device,
        tables: &Tables,
        gain: Gain,
        here: Here,
        n: usize,
        frames: &mut [i32],
        sum: &mut [i32],
    ) {
        self.refill(tables, n, here, gain, frames, sum);
    }
}

impl<B: Feeder> Mixed<B> for MapChannelOf<B> {
    ghost use Rattle.pcm_map.specs.Channels.{MapAddsTo};
    ghost use Rattle.pcm_bus.specs.Slots.{IsMapDue, MapMixes};

    ghost is_due = { IsMapDue B.kind B.kept };

    ghost leaves = { MapMixes B.kind B.kept };

    ghost adds = { MapAddsTo B.kept };

    fn mix_in(
        &mut self,
        _device: Device,
        tables: &Tables,
        gain: Gain,
        _here: Here,
        n: usize,
        frames: &mut [i32],
        sum: &mut [i32],
    ) {
        self.refill(tables, n, gain, frames, sum);
    }
}

// Adds the frames of each channel to a block of `n` frames, at the gain of its slot. These slots come after `first` others. `frames` holds
// one channel's part meanwhile.
fn mix_each<B: Feeder, C: Mixed<B>>(
    device: Device,
    tables: &Tables,
    channels: &mut Fixed<C>,
    mixer: &MixDev,
    first: usize,
    here: Here,
    n: usize,
    frames: &mut [i32],
    sum: &mut [i32],
)
    requires some { 0 < n }
    requires count { here.mixed + n < 2 ^ 64 }
    requires few { first + fixed_len channels.old ≤ SLOTS }
    requires due { All (C.is_due tables.now device n) (fixed_items channels.old) }
    requires block { HoldBlock device n frames.old sum.old }
    ensures left { AreLeft (C.leaves tables.now device here.mixed n) channels.old channels.new }
    ensures sum { Added (C.adds tables.now device n) (map_gains mixer.now first) (fixed_items channels.old)
        (fixed_len channels.old) sum.old sum.new }
    ensures block { HoldBlock device n frames.new sum.new }
{
    for slot in 0..channels.iter().len() {
        let gain = mixer.slot_gain(first + slot);
        channels[slot].mix_in(device, tables, gain, here, n, frames, sum);
    }
}

// Mixes a block of `n` frames from silence on, after what was mixed before: first of the channels that play, then of the mapped ones, each
// at the gain of its slot. All of it, once limited, gets the gain of what is mixed. `part` holds the frames of one channel meanwhile.
fn mix_block<B: Feeder>(
    device: Device,
    tables: &Tables,
    channels: &mut Fixed<PlayChannelOf<B>>,
    maps: &mut Fixed<MapChannelOf<B>>,
    mixer: &MixDev,
    here: Here,
    n: usize,
    part: &mut [i32],
    sum: &mut [i32],
)
    requires due { AreMixDue B.kind B.kept tables.now device here.mixed n channels.old maps.old }
    requires part { length part.old ≡ n * channels_of device.mix.layout }
    requires sum { length sum.old ≡ n * channels_of device.mix.layout }
    ensures mixed { AreLeft (PlayMixes B.kind B.kept tables.now device here.mixed n) channels.old channels.new }
    ensures taken { AreLeft (MapMixes B.kind B.kept tables.now device here.mixed n) maps.old maps.new }
    ensures block { MixesBlock B.kept tables.now device n mixer.now channels.old maps.old sum.new }
    ensures fits { All (FitsBits (bits_of device.mix.format)) sum.new }
{
    sum.fill(0);
    if n > 0 {
        let slots = channels.iter().len();
        mix_each(device, tables, channels, mixer, 0, here, n, part, sum);
        mix_each(device, tables, maps, mixer, slots, here, n, part, sum);
        apply_gain(mixer.master(), device.mix.layout, sum);
    }
}

/// Mixes a block of `n` frames into the front of a buffer: so many samples. `part` is scratch.
pub fn mix_front<B: Feeder>(
    device: Device,
    tables: &Tables,
    channels: &mut Fixed<PlayChannelOf<B>>,
    maps: &mut Fixed<MapChannelOf<B>>,
    mixer: &MixDev,
    here: Here,
    n: usize,
    samples: usize,
    part: &mut [i32],
    sum: &mut [i32],
)
    requires due { AreMixDue B.kind B.kept tables.now device here.mixed n channels.old maps.old }
    requires samples { samples ≡ n * channels_of device.mix.layout }
    requires part { samples ≤ length part.old }
    requires sum { samples ≤ length sum.old }
    ensures mixed { AreLeft (PlayMixes B.kind B.kept tables.now device here.mixed n) channels.old channels.new }
    ensures taken { AreLeft (MapMixes B.kind B.kept tables.now device here.mixed n) maps.old maps.new }
    ensures block { MixesBlock B.kept tables.now device n mixer.now channels.old maps.old (take samples sum.new) }
    ensures fits { All (FitsBits (bits_of device.mix.format)) (take samples sum.new) }
{
    let part = &mut part[..samples];
    let sum = &mut sum[..samples];
    mix_block(device, tables, channels, maps, mixer, here, n, part, sum);
}

/// Hands over the oldest frames of a full ring, as many as `out` holds, and puts a block of as many after the rest. The bytes are
/// scratch.
pub fn turn_ring(
    settings: Settings,
    n: usize,
    block: &[i32],
    ring: &mut ByteRing,
    bytes: &mut [u8],
    out: &mut [u8],
)
    requires full { length ring.old.bytes ≡ ring.old.size }
    requires within { n * frame_bytes settings ≤ ring.old.size }
    requires out { length out.old ≡ n * frame_bytes settings }
    requires bytes { n * frame_bytes settings ≤ length bytes.old }
    requires block { length block.now ≡ n * channels_of settings.layout }
    requires fits { All (FitsBits (bits_of settings.format)) block.now }
    ensures size { ring.new.size ≡ ring.old.size }
    ensures full { length ring.new.bytes ≡ ring.old.size }
    ensures out { out.new ≡ take (n * frame_bytes settings) ring.old.bytes }
    ensures ring { ring.new.bytes ≡ turned_ring settings n block.now ring.old.bytes }
{
    let spelled = &mut bytes[..n * settings.frame_bytes()];
    ring.take(out);
    spell_frames(settings.format, block, spelled);
    ring.put(spelled);
}

/// The ring of a device, full of silence.
pub fn silent_ring(alloc: Global, device: Device) -> Result<ByteRing, AllocError>
    requires { device.ring_frames ≤ RING_FRAMES }
    ensures size { IfOk result (λ made. made.size ≡ device.ring_frames * frame_bytes device.settings) }
    ensures full { IfOk result (λ made. length made.bytes ≡ device.ring_frames * frame_bytes device.settings) }
    ensures room { IfOk result (λ made. made.max ≡ made.size) }
    ensures ring { IfOk result (λ made. made.bytes ≡ silent_ring (unfiltered device)) }
{
    let settings = device.settings;
    let frames = device.ring_frames as usize;
    let silence = vec![in alloc; 0i32; frames * settings.layout.channels()]?;
    let mut bytes = vec![in alloc; 0u8; frames * settings.frame_bytes()]?;
    spell_frames(settings.format, &silence, &mut bytes);
    let mut ring = ByteRing::new(alloc, bytes.len())?;
    ring.put(&bytes);
    Ok(ring)
}
