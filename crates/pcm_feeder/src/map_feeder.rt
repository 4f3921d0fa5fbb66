//! The stages that turn each frame into another by itself.

ghost use Rattle.std.specs.Prelude.{◌≡◌, IfOk, IsOk};
ghost use Rattle.pcm_feeder.specs.Kept.{unfitted};

use crate::{AT_REST, Feeder, Gain, Kind, Moved, Progress, Pull, Spec, Tables};
use std::alloc::{AllocError, Global};

/// What a stage does to each frame, whatever came before it.
pub trait FrameMap: Drop {
    ghost use Rattle.std.specs.Prelude.{◌≡◌, ◌<◌, ◌≤◌, ◌*◌, length, IsSomeAnd};
    ghost use Rattle.pcm_format.specs.Frames.{Frame};
    ghost use Rattle.pcm_feeder.specs.declared.kind.Kind.{Kind};
    ghost use Rattle.pcm_feeder.specs.declared.stage.Gain.{Gain};
    ghost use Rattle.pcm_feeder.specs.declared.stage.Spec.{Spec};
    ghost use Rattle.pcm_feeder.specs.Kinds.{kind_of};
    ghost use Rattle.pcm_feeder.specs.Laws.{FeedsMapFrames, KeepsNothing};
    ghost use Rattle.pcm_feeder.specs.Limits.{IsGain, IsSpec};
    ghost use Rattle.pcm_feeder.specs.Stages.{channels_in, channels_out};
    ghost use Rattle.pcm_feeder.specs.Turns.{PutsTurned};

    // The stage that it makes of a feeder, what it was made for, and what it makes of a frame.
    ghost kind: { Kind };

    ghost stage: { Self → Spec };

    ghost mapped: { Self → Gain → Frame → Frame };

    /// The kind of stage.
    fn kind() -> Kind
        ensures { result ≡ kind };

    /// What a stage does. There is always something for its kind.
    fn of(spec: Spec) -> Option<Self>
        requires kind { kind_of spec ≡ kind }
        requires limits { IsSpec spec }
        ensures { IsSomeAnd result (λ made. stage made ≡ spec) };

    /// How many channels a frame of the input has.
    fn channels(&self) -> usize
        ensures value { result ≡ channels_in (stage self.now) }
        ensures some { 0 < result };

    /// Puts the first frames of the input, turned, at the front of the output.
    fn put_frames(&self, gain: Gain, input: &[i32], frames: usize, output: &mut [i32])
        requires limits { IsGain gain }
        requires input { frames * channels_in (stage self.now) ≤ length input.now }
        requires output { frames * channels_out (stage self.now) ≤ length output.old }
        ensures { PutsTurned (stage self.now) (mapped self.now gain) frames
            input.now output.old output.new };

    // And a feed of that stage turns frames so.
    ghost maps: { (made : Self) → FeedsMapFrames (stage made) (mapped made) };

    // It has no rate, and so nothing of the past.
    ghost unrated: { (made : Self) → KeepsNothing (stage made) };
}

/// Gives a frame for each frame that it eats. It keeps no sound.
#[derive(Drop)]
pub struct MapFeeder<M> {
    fitted: Option<M>,
}

impl<M: FrameMap> MapFeeder<M> {
    ghost use Rattle.pcm_feeder.specs.Maps.{kept_by_map};

    /// A feeder that nothing is fitted to yet. Takes no memory.
    pub fn new(alloc: Global) -> Result<MapFeeder<M>, AllocError>
        ensures ok { IsOk result }
        ensures unfitted { IfOk result (λ made. kept_by_map M.stage made ≡ unfitted) }
    {
        Ok(MapFeeder { fitted: None })
    }
}

impl<M: FrameMap> Feeder for MapFeeder<M> {
    ghost use Rattle.pcm_feeder.specs.Maps.{kept_by_map};

    ghost kind = { λ _. M.kind };

    ghost kept = { kept_by_map M.stage };

    // All have the same mark.
    ghost mark = { λ _. 0 };

    fn kind(&self) -> Kind {
        M::kind()
    }

    fn fit(&mut self, spec: Spec) {
        self.fitted = M::of(spec);
    }

    fn keep(&self, samples: &mut [i32]) -> Progress {
        AT_REST
    }

    fn resume(&mut self, spec: Spec, progress: Progress, samples: &[i32]) {
        self.fit(spec);
    }

    fn feed(&mut self, tables: &Tables, pull: Pull, input: &[i32], output: &mut [i32]) -> Moved {
        let Some(fitted) = &self.fitted else {
            return Moved { eaten: 0, given: 0 };
        };
        let frames = pull.want.min(input.len() / fitted.channels());
        fitted.put_frames(pull.gain, input, frames, output);
        Moved {
            eaten: frames,
            given: frames,
        }
    }
}
