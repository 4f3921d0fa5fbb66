//! What a channel's bytes and frames go through.

ghost use Rattle.std.specs.Prelude.{◌≡◌, IfOk};
ghost use Rattle.pcm_rate.specs.Rates.{IsRatio};
ghost use Rattle.pcm_feeder.specs.Limits.{AreFilters, IsRate};
ghost use Rattle.pcm_feeder.specs.Racks.{IsRack};
ghost use Rattle.pcm_plan.specs.Plans.{rate_in_plan};
ghost use Rattle.pcm_desk.specs.Device.{HasRates, seen};
ghost use Rattle.pcm_path.specs.Ways.{plan_between};

use pcm_chain::ChainOf;
use pcm_desk::{Device, Opening};
use pcm_feeder::{Feeder, RackOf, Tables};
use pcm_format::Settings;
use pcm_oss::{RING_BYTES, Way};
use pcm_plan::{Plan, plan_play, plan_record};
use pcm_ring::ByteRing;
use std::alloc::{AllocError, Global};

/// The ring and the chain between a client and the device: to the mix, or from the frames captured.
#[derive(Drop)]
pub struct PathOf<B> {
    pub device: Device,
    pub ring: ByteRing,
    pub chain: ChainOf<B>,
}

impl<B: Feeder> PathOf<B> {
    ghost use Rattle.pcm_path.specs.Paths.{CanBegin, HasBegun, HasBoxes, HasEnded, IsMadeOf};
    ghost use Rattle.pcm_path.specs.Resumes.{CanResumePath, PathResumes};
    ghost use Rattle.pcm_path.specs.Telling.{CanTellPath, HasToldPath};

    /// A path of a device with the boxes of a rack, for no opening yet. All its memory is taken here.
    pub fn new(alloc: Global, device: Device, rack: RackOf<B>) -> Result<PathOf<B>, AllocError>
        requires kinds { IsRack B.kind rack }
        ensures { IfOk result (IsMadeOf B.kind B.mark device rack) }
    {
        let ring = ByteRing::new(alloc, RING_BYTES as usize)?;
        let chain = ChainOf::new(alloc, rack)?;
        Ok(PathOf {
            device,
            ring,
            chain,
        })
    }

    /// A run of an opening of a way begins: an empty ring, of the size that its fragments give, and a chain that goes by the
    /// plan of its settings.
    pub fn begin(&mut self, way: Way, tables: &Tables, opening: &Opening)
        requires can { CanBegin B.kind opening.now self.old }
        ensures { HasBegun B.kind B.kept B.mark way tables.now opening.now self.old self.new }
    {
        let plan = plan_of(way, tables, &self.device, &opening.settings);
        let PathOf { ring, chain, .. } = self;
        ring.clear();
        ring.set_size(opening.fragments.size() as usize);
        chain.reset(&plan);
    }

    /// A run ends, and nothing of it is left: an empty ring of the same size, and a chain that goes by the same plan.
    pub fn restart(&mut self)
        requires { HasBoxes B.kind self.old }
        ensures { HasEnded B.kind B.kept self.old self.new }
    {
        self.ring.clear();
        self.chain.restart();
    }

    /// A run of an opening goes on from what was kept of it: these bytes wait in the ring, so many frames were eaten and given, and
    /// these are the samples of the past. Takes no memory.
    pub fn tell(
        &mut self,
        way: Way,
        tables: &Tables,
        opening: &Opening,
        waiting: &[u8],
        eaten: u64,
        given: u64,
        past: &[i32],
    )
        requires { CanTellPath B.kind way tables.now opening.now waiting.now eaten given past.now
            self.old }
        ensures { HasToldPath B.kind B.kept B.mark way tables.now opening.now waiting.now
            eaten given past.now self.old self.new }
    {
        self.begin(way, tables, opening);
        self.ring.put(waiting);
        let plan = plan_of(way, tables, &self.device, &opening.settings);
        self.chain.tell(&plan, eaten, given, past);
    }

    /// Goes on where another path of the same device is: with the bytes that wait there and, where somebody has that one, with all that its
    /// chain has eaten and given. Takes no memory.
    pub fn resume_from(&mut self, other: &PathOf<B>, held: bool)
        requires { CanResumePath B.kind B.kept held other.now self.old }
        ensures { PathResumes B.kind B.kept B.mark held other.now self.old self.new }
    {
        self.ring.copy_from(&other.ring);
        if held {
            self.chain.resume_from(&other.chain);
        }
    }
}

/// The plan from a client that plays or has a mapped area to the mix, or from the device to one that records.
pub fn plan_of(way: Way, tables: &Tables, device: &Device, client: &Settings) -> Plan
    requires device { HasRates device.now }
    requires client { IsRate client.now.rate }
    ensures value { result ≡ plan_between way (seen tables.now device.now) client.now }
    ensures limits { AreFilters tables.now }
    ensures ratio { IsRatio (rate_in_plan result) }
{
    match way {
        Way::Play | Way::Map => plan_play(client, &device.mix, device.quality, tables),
        Way::Record => plan_record(client, &device.settings, device.quality, tables),
    }
}
