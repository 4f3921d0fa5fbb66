//! The hold stage.

ghost use Rattle.std.specs.Prelude.{◌≡◌};
ghost use Rattle.pcm_feeder.specs.Streams.{frame_behind};
ghost use Rattle.feed_hold.specs.Places.{CanHold};

use feed_rate::{Interpolator, Point, RateFeeder};
use pcm_feeder::{Kind, LastFrames, Spec, Tables, frame_among};
use std::alloc::{AllocError, Global};

/// Gives the frame under each output.
pub type HoldFeeder = RateFeeder<Hold>;

/// The last frame.
#[derive(Drop)]
pub struct Hold {
    last: LastFrames,
    ghost one: { last.frames ≡ 1 },
}

impl Interpolator for Hold {
    ghost use Rattle.std.specs.Prelude.{false};
    ghost use Rattle.pcm_feeder.specs.declared.kind.Kind.TheVariants as kinds;
    ghost use Rattle.feed_rate.specs.LastFrames.{seen_with};
    ghost use Rattle.feed_rate.specs.Methods.Method.{ByFrame};
    ghost use Rattle.feed_rate.proofs.Histories.{last-channels};

    ghost kind = { kinds.Hold };

    ghost takes_memory = { false };

    ghost seen = { λ hold. seen_with hold.last (ByFrame hold.last.channels) };

    ghost frames = { λ hold. last-channels hold.last };

    fn new(alloc: Global) -> Result<Hold, AllocError> {
        let last = LastFrames::silent(1, 1);
        Ok(Hold { last })
    }

    fn kind(&self) -> Kind {
        Kind::Hold
    }

    fn fit(&mut self, spec: Spec) {
        if let Spec::Hold { channels, .. } = spec {
            self.last = LastFrames::silent(1, channels);
        }
    }

    fn keep(&self, samples: &mut [i32]) {
        self.last.keep(samples);
    }

    fn resume(&mut self, spec: Spec, samples: &[i32]) {
        if let Spec::Hold { channels, .. } = spec {
            self.last = LastFrames::of(1, channels, samples);
        }
    }

    fn channels(&self) -> usize {
        self.last.channels
    }

    fn put_frame(&mut self, tables: &Tables, input: &[i32], point: Point, output: &mut [i32]) {
        let channels = output.len();
        let kept = &self.last.samples()[..channels];
        if point.needed * channels >= kept.len() {
            put_among(channels, kept, input, point.needed, output);
        } else {
            put_early(channels, kept, input, point.needed, output);
        }
    }

    fn eat(&mut self, input: &[i32], eaten: usize) {
        self.last.eat(input, eaten);
    }
}

// Puts the frame at a place among the one kept and those that come. It goes through an array: for
// all that the compiler knows input and output overlap, and then it moves one sample at a time.
#[inline(always)]
fn put_among(channels: usize, kept: &[i32], input: &[i32], place: usize, output: &mut [i32])
    requires { CanHold channels kept.now input.now place output.old }
    ensures { output.new ≡ frame_behind channels kept.now input.now place }
{
    let mut frame = [0i32; 8];
    frame[..channels].copy_from_slice(frame_among(channels, kept, input, place));
    output.copy_from_slice(&frame[..channels]);
}

// Does so for the first outputs of a feed, which use the frame kept. It stands by itself, so that
// the loop over all other outputs chooses no address.
#[cold]
#[inline(never)]
fn put_early(channels: usize, kept: &[i32], input: &[i32], place: usize, output: &mut [i32])
    requires { CanHold channels kept.now input.now place output.old }
    ensures { output.new ≡ frame_behind channels kept.now input.now place }
{
    put_among(channels, kept, input, place, output);
}
