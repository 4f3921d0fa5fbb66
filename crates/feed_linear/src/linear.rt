//! The linear stage.

ghost use Rattle.std.specs.Prelude.{◌≡◌, ◌<◌};
ghost use Rattle.feed_linear.specs.Places.{point_on_line, CanBlend};

use crate::blend::Blend;
use crate::pairs::pair_among;
use feed_rate::{Interpolator, Point, RateFeeder};
use pcm_feeder::{Kind, LastFrames, Spec, Tables};
use pcm_num::Reciprocal;
use std::alloc::{AllocError, Global};

/// Gives the point of each output on the line from the frame under it to the next.
pub type LinearFeeder = RateFeeder<Line>;

/// The last two frames.
#[derive(Drop)]
pub struct Line {
    last: LastFrames,
    ghost two: { last.frames ≡ 2 },
}

impl Interpolator for Line {
    ghost use Rattle.std.specs.Prelude.{false};
    ghost use Rattle.pcm_feeder.specs.declared.kind.Kind.TheVariants as kinds;
    ghost use Rattle.feed_rate.specs.LastFrames.{seen_with};
    ghost use Rattle.feed_rate.specs.Methods.Method.{ByLine};
    ghost use Rattle.feed_rate.proofs.Histories.{last-channels};

    ghost kind = { kinds.Linear };

    ghost takes_memory = { false };

    ghost seen = { λ line. seen_with line.last (ByLine line.last.channels) };

    ghost frames = { λ line. last-channels line.last };

    fn new(alloc: Global) -> Result<Line, AllocError> {
        let last = LastFrames::silent(2, 1);
        Ok(Line { last })
    }

    fn kind(&self) -> Kind {
        Kind::Linear
    }

    fn fit(&mut self, spec: Spec) {
        if let Spec::Linear { channels, .. } = spec {
            self.last = LastFrames::silent(2, channels);
        }
    }

    fn keep(&self, samples: &mut [i32]) {
        self.last.keep(samples);
    }

    fn resume(&mut self, spec: Spec, samples: &[i32]) {
        if let Spec::Linear { channels, .. } = spec {
            self.last = LastFrames::of(2, channels, samples);
        }
    }

    fn channels(&self) -> usize {
        self.last.channels
    }

    fn put_frame(&mut self, tables: &Tables, input: &[i32], point: Point, output: &mut [i32]) {
        let channels = output.len();
        let kept = self.last.samples();
        if point.needed >= 2 {
            put_among(channels, kept, input, point, output);
        } else {
            let Point {
                needed,
                whole,
                parts,
            } = point;
            put_early(channels, kept, input, needed, whole, parts, output);
        }
    }

    fn eat(&mut self, input: &[i32], eaten: usize) {
        self.last.eat(input, eaten);
    }
}

// Puts the point on the line from the frame at a place, among two kept and those that come, to the
// next.
#[inline(always)]
fn put_among(channels: usize, kept: &[i32], input: &[i32], point: Point, output: &mut [i32])
    requires { CanBlend channels kept.now input.now point.needed output.old }
    ensures { output.new ≡ point_on_line channels kept.now input.now
        point.needed point.whole.divisor point.parts }
{
    let (frame, next) = pair_among(channels, kept, input, point.needed);
    Blend::at(point.whole, point.parts).put_frame(frame, next, output);
}

// Does so for the first outputs of a feed, which use a frame kept. It stands by itself, so that the
// loop over all other outputs chooses no address, and takes a point by its parts, so that none of
// them is put into memory for it.
#[cold]
#[inline(never)]
fn put_early(
    channels: usize,
    kept: &[i32],
    input: &[i32],
    needed: usize,
    whole: Reciprocal,
    parts: u32,
    output: &mut [i32],
)
    requires inside { parts < whole.divisor }
    requires can { CanBlend channels kept.now input.now needed output.old }
    ensures { output.new ≡ point_on_line channels kept.now input.now needed whole.divisor parts }
{
    let point = Point::at(needed, whole, parts);
    put_among(channels, kept, input, point, output);
}
