//! How an output comes of the frames around it.

use crate::Point;
use pcm_feeder::{Kind, Spec, Tables};
use std::alloc::{AllocError, Global};

/// What a converter keeps of the past, and how an output comes of that and of the frames that come.
///
/// Within a feed it may take frames of the input in as outputs pass them, or leave all to the end.
pub trait Interpolator: Drop {
    ghost use Rattle.std.specs.Prelude.{◌≡◌, ◌≤◌, ◌*◌, Bool, false, length, IfOk, IsOk};
    ghost use Rattle.pcm_feeder.specs.declared.kind.Kind.{Kind};
    ghost use Rattle.pcm_feeder.specs.Kept.{fresh};
    ghost use Rattle.pcm_feeder.specs.Kinds.{kind_of};
    ghost use Rattle.pcm_feeder.specs.Limits.{AreChannels, IsSpec};
    ghost use Rattle.pcm_feeder.specs.Stages.{channels_in, history, rate_of};
    ghost use Rattle.pcm_feeder.specs.Streams.{HaveChannels, frames_of, interleaved};
    ghost use Rattle.feed_rate.specs.Methods.{spec_of, channels_by, history_by, HasFilter};
    ghost use Rattle.feed_rate.specs.Outputs.{Seen, GivesOutput, TakesIn};

    // The stage that it makes of a converter, and whether it takes memory.
    ghost kind: { Kind };

    ghost takes_memory: { Bool };

    // What it was fitted to, the last frames, and how many of the input are among them already.
    ghost seen: { Self → Seen };

    /// One that nothing is fitted to yet. All memory is taken here.
    fn new(alloc: Global) -> Result<Self, AllocError>
        ensures ok { takes_memory ≡ false → IsOk result }
        ensures passed { IfOk result (λ made. (seen made).passed ≡ 0) };

    /// The kind of stage.
    fn kind(&self) -> Kind
        ensures { result ≡ kind };

    /// Begins with silence.
    fn fit(&mut self, spec: Spec)
        requires kind { kind_of spec ≡ kind }
        requires limits { IsSpec spec }
        ensures method { spec ≡ spec_of (seen self.new).method (rate_of spec) }
        ensures tail { (seen self.new).tail ≡ (fresh spec).tail }
        ensures passed { (seen self.new).passed ≡ 0 };

    /// Copies the frames that it keeps, interleaved.
    fn keep(&self, samples: &mut [i32])
        requires rested { (seen self.now).passed ≡ 0 }
        requires room { length samples.old
            ≡ history_by (seen self.now).method * channels_by (seen self.now).method }
        ensures { samples.new ≡ interleaved (seen self.now).tail };

    /// Begins with these frames, interleaved, in place of silence.
    fn resume(&mut self, spec: Spec, samples: &[i32])
        requires kind { kind_of spec ≡ kind }
        requires limits { IsSpec spec }
        requires size { length samples.now ≡ history spec * channels_in spec }
        ensures method { spec ≡ spec_of (seen self.new).method (rate_of spec) }
        ensures tail { (seen self.new).tail ≡ frames_of (channels_in spec) samples.now }
        ensures passed { (seen self.new).passed ≡ 0 };

    /// How many channels a frame has.
    fn channels(&self) -> usize
        ensures value { result ≡ channels_by (seen self.now).method }
        ensures limits { AreChannels result };

    /// Writes the output at a point. The length of `output` is the number of channels, which the
    /// compiler knows where the caller's slice has a length that it knows: then a loop over them is
    /// unrolled.
    fn put_frame(&mut self, tables: &Tables, input: &[i32], point: Point, output: &mut [i32])
        requires filter { HasFilter (seen self.old).method tables.now }
        requires order { (seen self.old).passed ≤ point.needed }
        requires there { point.needed * channels_by (seen self.old).method ≤ length input.now }
        requires room { length output.old ≡ channels_by (seen self.old).method }
        ensures frame { GivesOutput (seen self.old) tables.now input.now point output.new }
        ensures tail { TakesIn (seen self.old) input.now (seen self.new).passed (seen self.new).tail }
        ensures passed { (seen self.new).passed ≤ point.needed }
        ensures method { (seen self.new).method ≡ (seen self.old).method };

    /// Ends a feed: takes in the frames of the input up to a place, in place of as many of the oldest.
    fn eat(&mut self, input: &[i32], eaten: usize)
        requires order { (seen self.old).passed ≤ eaten }
        requires there { eaten * channels_by (seen self.old).method ≤ length input.now }
        ensures tail { TakesIn (seen self.old) input.now eaten (seen self.new).tail }
        ensures passed { (seen self.new).passed ≡ 0 }
        ensures method { (seen self.new).method ≡ (seen self.old).method };

    ghost frames: { (interpolator : Self)
        → HaveChannels (channels_by (seen interpolator).method) (seen interpolator).tail };
}
