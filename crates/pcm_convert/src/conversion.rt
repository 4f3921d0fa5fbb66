//! A conversion: the bytes that it has read wait in a ring, and a chain makes frames of them.

ghost use Rattle.std.specs.Prelude.{◌≡◌, ◌+◌, ◌*◌};
ghost use Rattle.pcm_sequence.specs.Fixed.{fixed_len};
ghost use Rattle.pcm_format.specs.Frames.{frame_bytes};
ghost use Rattle.pcm_format.specs.Layouts.{channels_of};
ghost use Rattle.pcm_rate.specs.Rates.{need};
ghost use Rattle.pcm_feeder.specs.Limits.{IsRate};
ghost use Rattle.pcm_plan.specs.Plans.{rate_in_plan};
ghost use Rattle.pcm_chain.specs.Chains.{plan_in};
ghost use Rattle.pcm_convert.specs.Conversions.{conversion_plan};
ghost use Rattle.pcm_feeder.specs.Filters.{no_filters};
ghost use Rattle.pcm_convert.specs.declared.conversion.TheConstants.{BLOCK};

use pcm_chain::ChainOf;
use pcm_feeder::{Feeder, RackOf, Tables, UNITY};
use pcm_format::{Settings, spell_frames};
use pcm_plan::plan_record;
use pcm_ring::ByteRing;
use pcm_sequence::Fixed;
use std::alloc::{AllocError, Global};

/// How many frames a block has, at most.
pub const BLOCK: usize = 16384;

// A conversion draws lines between frames.
pub(crate) const QUALITY: u32 = 1;

/// What turns a body in settings `source` into one in settings `target`, block by block.
#[derive(Drop)]
pub struct ConversionOf<B> {
    source: Settings,
    target: Settings,
    tables: Tables,
    chain: ChainOf<B>,
    ring: ByteRing,
    samples: Fixed<i32>,
    // How many bytes of the body went into the ring.
    entered: usize,
    ghost source_rate: { IsRate source.rate },
    ghost target_rate: { IsRate target.rate },
    ghost filters: { tables ≡ no_filters },
    ghost plan: { plan_in chain ≡ conversion_plan source target },
    ghost room: { ring.size
        ≡ need (rate_in_plan (conversion_plan source target)) (BLOCK + 1) * frame_bytes source },
    ghost block: { fixed_len samples ≡ BLOCK * channels_of target.layout },
}

impl<B: Feeder> ConversionOf<B> {
    ghost use Rattle.std.specs.Prelude.{◌≤◌, ℕ, List, length, IfOk};
    ghost use Rattle.pcm_feeder.specs.Racks.{IsRack};
    ghost use Rattle.pcm_convert.specs.Conversions.{converted_frames};
    ghost use Rattle.pcm_convert.specs.Stands.{source_in, target_in, ConversionStands, HoldsRack, IsBlockSize, IsUnderWay, MovesOn, PutsBlock};

    /// A conversion from settings to settings that has given nothing of a body. All its memory is taken here.
    pub fn new(
        alloc: Global,
        rack: RackOf<B>,
        source: Settings,
        target: Settings,
    ) -> Result<ConversionOf<B>, AllocError>
        requires kinds { IsRack B.kind rack }
        requires source { IsRate source.rate }
        requires target { IsRate target.rate }
        ensures source { IfOk result (λ made. source_in made ≡ source) }
        ensures target { IfOk result (λ made. target_in made ≡ target) }
        ensures boxes { IfOk result (HoldsRack B.mark rack) }
        ensures stands { IfOk result (λ made. (body : List ℕ) → ConversionStands B.kept made body 0) }
    {
        let tables = Tables::none(alloc);
        let plan = plan_record(&target, &source, QUALITY, &tables);
        // This many frames are enough for a block, wherever the conversion stands.
        let frames = plan.need(BLOCK as u64 + 1) as usize;
        let ring = ByteRing::new(alloc, frames * source.frame_bytes())?;
        let samples = Fixed::new(vec![in alloc; 0i32; BLOCK * target.layout.channels()]?);
        let mut chain = ChainOf::new(alloc, rack)?;
        chain.reset(&plan);
        Ok(ConversionOf {
            source,
            target,
            tables,
            chain,
            ring,
            samples,
            entered: 0,
        })
    }

    /// The settings of the bytes that go in.
    pub fn source(&self) -> Settings
        ensures { result ≡ source_in self.now }
    {
        self.source
    }

    /// The settings of the bytes that come out.
    pub fn target(&self) -> Settings
        ensures { result ≡ target_in self.now }
    {
        self.target
    }

    /// How many frames come out of a body, in all.
    pub fn count(&self, body: &[u8]) -> u128
        ensures { result ≡ converted_frames (source_in self.now) (target_in self.now) body.now }
    {
        let frames = body.len() / self.source.frame_bytes();
        self.chain.plan().len(frames as u64)
    }

    /// Puts the next bytes of the converted body at the front of `out`, at most `BLOCK` frames, and
    /// returns how many bytes they are: none once all were given. Takes no memory.
    pub fn next_block(&mut self, body: &[u8], out: &mut [u8]) -> usize
        requires stands { IsUnderWay B.kept self.old body.now }
        requires room { BLOCK * frame_bytes (target_in self.old) ≤ length out.old }
        ensures source { source_in self.new ≡ source_in self.old }
        ensures target { target_in self.new ≡ target_in self.old }
        ensures count { IsBlockSize B.kept self.old body.now result }
        ensures block { PutsBlock B.kept self.old body.now result out.old out.new }
        ensures stands { MovesOn B.kept self.old self.new body.now }
    {
        self.entered += self.ring.put(&body[self.entered..]);
        let pulled = self.chain.pull(
            &self.tables,
            UNITY,
            &mut self.ring,
            self.source.format,
            self.entered == body.len(),
            BLOCK,
            &mut self.samples,
        );
        let samples = pulled.given * self.target.layout.channels();
        let bytes = pulled.given * self.target.frame_bytes();
        spell_frames(
            self.target.format,
            &self.samples[..samples],
            &mut out[..bytes],
        );
        bytes
    }
}

/// A conversion whose rack holds boxes.
pub type Conversion = ConversionOf<Box<dyn Feeder>>;
