//! The way from the channels that play to the device: what is mixed, and the chain that makes the device's frames of it.

ghost use Rattle.std.specs.Prelude.{◌≡◌, ◌+◌, ◌*◌, ◌^◌, ◌<◌, ◌≤◌, [], length, take, All, IfOk};
ghost use Rattle.pcm_sequence.specs.Fixed.{fixed_items, fixed_len};
ghost use Rattle.pcm_num.specs.Limit.{FitsBits};
ghost use Rattle.pcm_format.specs.Formats.{bits_of};
ghost use Rattle.pcm_format.specs.Frames.{frame_bytes};
ghost use Rattle.pcm_format.specs.Layouts.{channels_of};
ghost use Rattle.pcm_chain.specs.Chains.{AreFitted, HasRack, IsOfKinds};
ghost use Rattle.pcm_desk.specs.declared.limits.TheConstants.{MIX_FRAMES, RING_FRAMES};
ghost use Rattle.pcm_desk.specs.Channels.{mixed_by};
ghost use Rattle.pcm_desk.specs.Device.{mix_frames, seen, unfiltered};
ghost use Rattle.pcm_bus.specs.Buses.{BusStands, CanCarry, HandsOn, IsRingOf, TurnsBus};
ghost use Rattle.pcm_bus.specs.Handovers.{CanMake, HasMade, IsPlannedBy, MakesOnFar};
ghost use Rattle.pcm_bus.specs.Slots.{AreMixDue, AreLeft, MapMixes, PlayMixes};

use crate::handover::hand_over;
use crate::mix::{mix_front, turn_ring};
use pcm_chain::ChainOf;
use pcm_desk::{Device, Here};
use pcm_feeder::{Feeder, RackOf, Tables};
use pcm_map::MapChannelOf;
use pcm_mixdev::MixDev;
use pcm_plan::plan_record;
use pcm_play::PlayChannelOf;
use pcm_ring::ByteRing;
use pcm_sequence::Fixed;
use std::alloc::{AllocError, Global};

/// The chain between the mix and the device, and room for what an interrupt mixes, for one channel's part of it, for the frames
/// that the device gets and for their bytes.
#[derive(Drop)]
pub struct BusOf<B> {
    pub device: Device,
    pub chain: ChainOf<B>,
    part: Fixed<i32>,
    sum: Fixed<i32>,
    frames: Fixed<i32>,
    bytes: Fixed<u8>,
    ghost within: { device.ring_frames ≤ RING_FRAMES },
    ghost mix_within: { mix_frames (unfiltered device) ≤ MIX_FRAMES },
    ghost part_size: { fixed_len part ≡ mix_frames (unfiltered device) * channels_of device.mix.layout },
    ghost sum_size: { fixed_len sum ≡ mix_frames (unfiltered device) * channels_of device.mix.layout },
    ghost frames_size: { fixed_len frames ≡ device.ring_frames * channels_of device.settings.layout },
    ghost bytes_size: { fixed_len bytes ≡ device.ring_frames * frame_bytes device.settings },
}

impl<B: Feeder> BusOf<B> {
    ghost use Rattle.pcm_bus.specs.Resumes.{BusResumes};

    /// A bus of a device, with the boxes of a rack, which has made nothing yet. All its memory is taken here.
    pub fn new(
        alloc: Global,
        device: Device,
        tables: &Tables,
        rack: RackOf<B>,
    ) -> Result<BusOf<B>, AllocError>
        requires { CanCarry B.kind device rack }
        ensures device { IfOk result (λ made. made.device ≡ device) }
        ensures planned { IfOk result (λ made. IsPlannedBy (seen tables.now device) made.chain) }
        ensures made { IfOk result (λ made. HasMade B.kept (seen tables.now device) made.chain [] 0) }
        ensures kinds { IfOk result (λ made. IsOfKinds B.kind made.chain) }
        ensures boxes { IfOk result (λ made. HasRack B.mark rack made.chain) }
    {
        let mut chain = ChainOf::new(alloc, rack)?;
        chain.reset(&plan_record(&device.settings, &device.mix, device.quality, tables));
        let mixed = device.mix_frames() as usize * device.mix.layout.channels();
        let frames = device.ring_frames as usize * device.settings.layout.channels();
        let bytes = device.ring_frames as usize * device.settings.frame_bytes();
        Ok(BusOf {
            device,
            chain,
            part: Fixed::new(vec![in alloc; 0i32; mixed]?),
            sum: Fixed::new(vec![in alloc; 0i32; mixed]?),
            frames: Fixed::new(vec![in alloc; 0i32; frames]?),
            bytes: Fixed::new(vec![in alloc; 0u8; bytes]?),
        })
    }

    /// An interrupt of `n` frames, after `handed` were handed over, and where the mix was here: the ring hands over its oldest frames.
    /// After the rest it gets those that the chain makes of what all channels give at the gains of the mixer device. Answers how many
    /// frames were mixed. Takes no memory.
    pub fn turn(
        &mut self,
        tables: &Tables,
        channels: &mut Fixed<PlayChannelOf<B>>,
        maps: &mut Fixed<MapChannelOf<B>>,
        mixer: &MixDev,
        handed: u64,
        here: Here,
        n: usize,
        ring: &mut ByteRing,
        out: &mut [u8],
    ) -> usize
        requires within { n ≤ self.old.device.ring_frames }
        requires handed { handed + n < 2 ^ 64 }
        requires due { AreMixDue B.kind B.kept tables.now self.old.device here.mixed
            (mixed_by (seen tables.now self.old.device) handed n) channels.old maps.old }
        requires stands { BusStands B.kept (seen tables.now self.old.device) self.old.chain handed }
        requires ring { IsRingOf self.old.device ring.old }
        requires out { length out.old ≡ n * frame_bytes self.old.device.settings }
        ensures device { self.new.device ≡ self.old.device }
        ensures stands { BusStands B.kept (seen tables.now self.old.device) self.new.chain (handed + n) }
        ensures count { result ≡ mixed_by (seen tables.now self.old.device) handed n }
        ensures mixed { AreLeft (PlayMixes B.kind B.kept tables.now self.old.device here.mixed result) channels.old channels.new }
        ensures taken { AreLeft (MapMixes B.kind B.kept tables.now self.old.device here.mixed result) maps.old maps.new }
        ensures ring { IsRingOf self.old.device ring.new }
        ensures out { out.new ≡ take (n * frame_bytes self.old.device.settings) ring.old.bytes }
        ensures turns { TurnsBus B.kept (seen tables.now self.old.device) handed n mixer.now (fixed_items channels.old)
            (fixed_items maps.old) self.old.chain self.new.chain ring.old.bytes ring.new.bytes }
    {
        let device = self.device;
        let count = self.mixed_by(tables, handed, n);
        let samples = self.samples(count);
        mix_front(
            device,
            tables,
            channels,
            maps,
            mixer,
            here,
            count,
            samples,
            &mut self.part,
            &mut self.sum,
        );
        hand_on(
            device,
            tables,
            &mut self.chain,
            n,
            samples,
            &mut self.sum,
            &mut self.frames,
            &mut self.bytes,
            ring,
            out,
        );
        count
    }

    /// Goes on where another bus of the same device is: with all that its chain has eaten and given. What is mixed at an interrupt is
    /// scratch, and stays. Takes no memory.
    pub fn resume_from(&mut self, other: &BusOf<B>)
        requires kinds { IsOfKinds B.kind self.old.chain }
        requires fitted { AreFitted B.kept other.now.chain }
        ensures { BusResumes B.kind B.kept B.mark other.now self.old self.new }
    {
        self.chain.resume_from(&other.chain);
    }

    // How many frames an interrupt of `n` mixes, after `handed` were handed over.
    fn mixed_by(&self, tables: &Tables, handed: u64, n: usize) -> usize
        requires within { n ≤ self.now.device.ring_frames }
        requires handed { handed + n < 2 ^ 64 }
        requires planned { IsPlannedBy (seen tables.now self.now.device) self.now.chain }
        ensures value { result ≡ mixed_by (seen tables.now self.now.device) handed n }
        ensures most { result ≤ mix_frames (unfiltered self.now.device) }
    {
        let plan = self.chain.plan();
        (plan.need(handed + n as u64) - plan.need(handed)) as usize
    }

    // How many samples so many frames of the mix have: the scratch has room for them.
    fn samples(&self, count: usize) -> usize
        requires { count ≤ mix_frames (unfiltered self.now.device) }
        ensures value { result ≡ count * channels_of self.now.device.mix.layout }
        ensures part { result ≤ fixed_len self.now.part }
        ensures sum { result ≤ fixed_len self.now.sum }
    {
        count * self.device.mix.layout.channels()
    }
}

// Hands over what the device gets for so many mixed samples at the front of a buffer, `n` of its frames, and turns its ring by these.
// `frames` and `bytes` are scratch.
fn hand_on<B: Feeder>(
    device: Device,
    tables: &Tables,
    chain: &mut ChainOf<B>,
    n: usize,
    samples: usize,
    sum: &mut [i32],
    frames: &mut [i32],
    bytes: &mut [u8],
    ring: &mut ByteRing,
    out: &mut [u8],
)
    requires planned { IsPlannedBy (seen tables.now device) chain.old }
    requires samples { samples ≤ length sum.old }
    requires fits { All (FitsBits (bits_of device.mix.format)) (take samples sum.old) }
    requires can { CanMake B.kept (seen tables.now device) chain.old (take samples sum.old) n }
    requires within { n ≤ device.ring_frames }
    requires frames { device.ring_frames * channels_of device.settings.layout ≤ length frames.old }
    requires bytes { device.ring_frames * frame_bytes device.settings ≤ length bytes.old }
    requires ring { IsRingOf device ring.old }
    requires out { length out.old ≡ n * frame_bytes device.settings }
    ensures planned { IsPlannedBy (seen tables.now device) chain.new }
    ensures ring { IsRingOf device ring.new }
    ensures out { out.new ≡ take (n * frame_bytes device.settings) ring.old.bytes }
    ensures far { MakesOnFar B.kept (seen tables.now device) (take samples sum.old) n chain.old chain.new }
    ensures turns { HandsOn B.kept (seen tables.now device) (take samples sum.old) n
        chain.old chain.new ring.old.bytes ring.new.bytes }
{
    let made = hand_over(device, tables, chain, n, &mut sum[..samples], frames);
    turn_ring(device.settings, n, made, ring, bytes, out);
}
