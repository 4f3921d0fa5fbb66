//! The depth stage.

ghost use Rattle.pcm_feeder.specs.Limits.{IsDepth};

use pcm_feeder::{FrameMap, Gain, Kind, MapFeeder, Spec};
use pcm_format::put_at_depth;

/// Takes samples of 32 bits to fewer bits.
pub type DepthFeeder = MapFeeder<Depth>;

/// The bits of each sample of the output, and the channels of a frame.
#[derive(Drop)]
pub struct Depth {
    bits: u32,
    channels: usize,
    ghost limits: { IsDepth bits channels },
}

impl FrameMap for Depth {
    ghost use Rattle.std.proofs.Common.{refl};
    ghost use Rattle.pcm_feeder.specs.declared.kind.Kind.TheVariants as kinds;
    ghost use Rattle.pcm_feeder.specs.declared.stage.Spec.TheVariants as specs;
    ghost use Rattle.pcm_feeder.specs.Stages.{at_bits};
    ghost use Rattle.pcm_feeder.proofs.Unrated.{maps-depth};

    ghost kind = { kinds.Depth };

    ghost stage = { λ depth. specs.Depth depth.bits depth.channels };

    ghost mapped = { λ depth gain. at_bits depth.bits };

    ghost maps = { λ depth. maps-depth depth.bits depth.channels };

    ghost unrated = { λ _. record { rate = refl; history = refl } };

    fn kind() -> Kind {
        Kind::Depth
    }

    fn of(spec: Spec) -> Option<Depth> {
        match spec {
            Spec::Depth { bits, channels } => Some(Depth { bits, channels }),
            _ => None,
        }
    }

    fn channels(&self) -> usize {
        self.channels
    }

    fn put_frames(&self, gain: Gain, input: &[i32], frames: usize, output: &mut [i32]) {
        let samples = frames * self.channels;
        put_at_depth(&input[..samples], self.bits, &mut output[..samples]);
    }
}
