//! The volume stage.

ghost use Rattle.std.specs.Prelude.{◌≡◌, ◌<◌, ◌≤◌, ◌*◌, length};
ghost use Rattle.pcm_feeder.specs.Streams.{written};
ghost use Rattle.pcm_feeder.specs.Gains.{AreGains};
ghost use Rattle.feed_volume.specs.Gains.{first_at_gains};

use pcm_feeder::{FrameMap, Gain, Kind, MapFeeder, Spec, put_frame, side_gains};
use pcm_format::Layout;

/// Multiplies each sample by the gain of its side.
pub type VolumeFeeder = MapFeeder<Volume>;

/// The layout of which each channel is on a side.
#[derive(Drop)]
pub struct Volume {
    layout: Layout,
}

impl FrameMap for Volume {
    ghost use Rattle.std.proofs.Common.{refl};
    ghost use Rattle.pcm_feeder.specs.declared.kind.Kind.TheVariants as kinds;
    ghost use Rattle.pcm_feeder.specs.declared.stage.Spec.TheVariants as specs;
    ghost use Rattle.pcm_feeder.specs.Layouts.{at_gain};
    ghost use Rattle.pcm_feeder.proofs.Unrated.{maps-volume};

    ghost kind = { kinds.Volume };

    ghost stage = { λ volume. specs.Volume volume.layout };

    ghost mapped = { λ volume. at_gain volume.layout };

    ghost maps = { λ volume. maps-volume volume.layout };

    ghost unrated = { λ _. record { rate = refl; history = refl } };

    fn kind() -> Kind {
        Kind::Volume
    }

    fn of(spec: Spec) -> Option<Volume> {
        match spec {
            Spec::Volume { layout } => Some(Volume { layout }),
            _ => None,
        }
    }

    fn channels(&self) -> usize {
        self.layout.channels()
    }

    fn put_frames(&self, gain: Gain, input: &[i32], frames: usize, output: &mut [i32]) {
        let channels = self.layout.channels();
        if gain.left == 65536 && gain.right == 65536 {
            let samples = frames * channels;
            output[..samples].copy_from_slice(&input[..samples]);
            return;
        }
        let gains = side_gains(self.layout, gain);
        put_at_gains(&gains[..channels], frames, input, output);
    }
}

// Puts the first frames of the input, with a gain for each channel, at the front of the output.
fn put_at_gains(gains: &[u32], frames: usize, input: &[i32], output: &mut [i32])
    requires some { 0 < length gains.now }
    requires limits { AreGains gains.now }
    requires source { frames * length gains.now ≤ length input.now }
    requires room { frames * length gains.now ≤ length output.old }
    ensures { output.new ≡ written (first_at_gains gains.now frames input.now) output.old }
{
    let channels = gains.len();
    for k in 0..frames {
        let at = k * channels;
        put_frame(
            gains,
            &input[at..at + channels],
            &mut output[at..at + channels],
        );
    }
}
