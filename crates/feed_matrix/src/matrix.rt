//! The matrix stage.

ghost use Rattle.std.specs.Prelude.{◌≡◌, ◌≤◌, ◌*◌, pos, ◌*ℤ◌, length, map, take};
ghost use Rattle.pcm_num.specs.Floor.{floor_div};
ghost use Rattle.pcm_num.specs.Limit.{clamped};
ghost use Rattle.pcm_format.specs.Layouts.{channels_of};
ghost use Rattle.pcm_feeder.specs.Layouts.{in_layout};
ghost use Rattle.pcm_feeder.specs.Streams.{frames_of, written};
ghost use Rattle.feed_matrix.specs.Weights.{weighted_sum, AreAtMostOne, AreWeights};

use crate::weight::weights;
use pcm_feeder::{FrameMap, Gain, Kind, MapFeeder, Spec};
use pcm_format::Layout;
use pcm_num::{clamp_bits, floor_shift};

/// Brings frames of one layout to another.
pub type MatrixFeeder = MapFeeder<Matrix>;

/// Two layouts.
#[derive(Clone, Copy)]
pub struct Matrix {
    from: Layout,
    to: Layout,
}

impl FrameMap for Matrix {
    ghost use Rattle.std.proofs.Common.{refl};
    ghost use Rattle.pcm_feeder.specs.declared.kind.Kind.TheVariants as kinds;
    ghost use Rattle.pcm_feeder.specs.declared.stage.Spec.TheVariants as specs;
    ghost use Rattle.pcm_feeder.proofs.Unrated.{maps-matrix};

    ghost kind = { kinds.Matrix };

    ghost stage = { λ matrix. specs.Matrix matrix.from matrix.to };

    ghost mapped = { λ matrix gain. in_layout matrix.from matrix.to };

    ghost maps = { λ matrix. maps-matrix matrix.from matrix.to };

    ghost unrated = { λ _. record { rate = refl; history = refl } };

    fn kind() -> Kind {
        Kind::Matrix
    }

    fn of(spec: Spec) -> Option<Matrix> {
        match spec {
            Spec::Matrix { from, to } => Some(Matrix { from, to }),
            _ => None,
        }
    }

    fn channels(&self) -> usize {
        self.from.channels()
    }

    fn put_frames(&self, gain: Gain, input: &[i32], frames: usize, output: &mut [i32]) {
        let to = self.to;
        match self.from {
            Layout::One => put_from(Layout::One, to, input, frames, output),
            Layout::Two => put_from(Layout::Two, to, input, frames, output),
            Layout::Four => put_from(Layout::Four, to, input, frames, output),
            Layout::Six => put_from(Layout::Six, to, input, frames, output),
            Layout::Eight => put_from(Layout::Eight, to, input, frames, output),
        }
    }
}

// Puts frames of one layout, by the loop of that layout and the other. Both are constants of the loop, and what it calls is
// inlined: so what is done to one frame is straight code, in which weights are constants, and those of zero aren't there.
#[inline(always)]
fn put_from(from: Layout, to: Layout, input: &[i32], frames: usize, output: &mut [i32])
    requires input { frames * channels_of from ≤ length input.now }
    requires output { frames * channels_of to ≤ length output.old }
    ensures { output.new ≡ written
        (map (in_layout from to) (take frames (frames_of (channels_of from) input.now)))
        output.old }
{
    match to {
        Layout::One => put_each(from, Layout::One, input, frames, output),
        Layout::Two => put_each(from, Layout::Two, input, frames, output),
        Layout::Four => put_each(from, Layout::Four, input, frames, output),
        Layout::Six => put_each(from, Layout::Six, input, frames, output),
        Layout::Eight => put_each(from, Layout::Eight, input, frames, output),
    }
}

// Puts each frame.
#[inline(always)]
fn put_each(from: Layout, to: Layout, input: &[i32], frames: usize, output: &mut [i32])
    requires input { frames * channels_of from ≤ length input.now }
    requires output { frames * channels_of to ≤ length output.old }
    ensures { output.new ≡ written
        (map (in_layout from to) (take frames (frames_of (channels_of from) input.now)))
        output.old }
{
    let rows = weights(from, to);
    let (taken, given) = (from.channels(), to.channels());
    for k in 0..frames {
        let frame = &input[k * taken..k * taken + taken];
        put_frame(
            from,
            to,
            &rows,
            frame,
            &mut output[k * given..k * given + given],
        );
    }
}

// Puts one frame.
#[inline(always)]
fn put_frame(from: Layout, to: Layout, rows: &[[u32; 8]; 8], frame: &[i32], output: &mut [i32])
    requires rows { AreWeights from to rows.now }
    requires frame { length frame.now ≡ channels_of from }
    requires output { length output.old ≡ channels_of to }
    ensures { output.new ≡ in_layout from to frame.now }
{
    for at in 0..output.len() {
        output[at] = gathered(&rows[at][..frame.len()], frame);
    }
}

// The sample of one position: the sum is rounded down, and limited once.
#[inline(always)]
fn gathered(row: &[u32], frame: &[i32]) -> i32
    requires lengths { length row.now ≡ length frame.now }
    requires count { length row.now ≤ 8 }
    requires limits { AreAtMostOne row.now }
    ensures { result ≡ clamped 32 (floor_div (weighted_sum row.now frame.now) 65536) }
{
    clamp_bits(floor_shift(weighted_sum(row, frame), 16), 32)
}

// The sum of a frame's samples, each times its weight.
#[inline(always)]
fn weighted_sum(row: &[u32], frame: &[i32]) -> i64
    requires lengths { length row.now ≡ length frame.now }
    requires count { length row.now ≤ 8 }
    requires limits { AreAtMostOne row.now }
    ensures { result ≡ weighted_sum row.now frame.now }
{
    let mut sum = 0;
    for (at, sample) in frame.iter().enumerate() {
        sum += weighted(row[at], *sample);
    }
    sum
}

// A sample times a weight.
fn weighted(weight: u32, sample: i32) -> i64
    requires { weight ≤ 65536 }
    ensures { result ≡ (pos weight *ℤ sample) }
{
    i64::from(weight) * i64::from(sample)
}
