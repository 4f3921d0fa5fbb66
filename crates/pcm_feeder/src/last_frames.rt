//! The last frames of a stream, for a stage that reads them where they lie.

ghost use Rattle.std.specs.Prelude.{◌≡◌, ◌≤◌, ◌*◌, length, replicate};
ghost use Rattle.pcm_feeder.specs.Limits.{AreChannels};
ghost use Rattle.pcm_feeder.specs.Streams.{frames_of, interleaved, silence};

use crate::move_on;

/// One frame or two: the first of the samples.
#[derive(Clone, Copy)]
pub struct LastFrames {
    pub frames: usize,
    pub channels: usize,
    len: usize,
    samples: [i32; 16],
    ghost few: { frames ≤ 2 },
    ghost limits: { AreChannels channels },
    ghost size: { len ≡ frames * channels },
    ghost room: { length samples ≡ 16 },
}

impl LastFrames {
    ghost use Rattle.pcm_feeder.specs.LastFrames.{frames_kept, kept_after_eating};

    /// `frames` frames of silence.
    pub fn silent(frames: usize, channels: usize) -> LastFrames
        requires few { frames ≤ 2 }
        requires limits { AreChannels channels }
        ensures frames { result.frames ≡ frames }
        ensures channels { result.channels ≡ channels }
        ensures silence { frames_kept result ≡ replicate frames (silence channels) }
    {
        LastFrames {
            frames,
            channels,
            len: frames * channels,
            samples: [0; 16],
        }
    }

    /// These frames, interleaved.
    pub fn of(frames: usize, channels: usize, samples: &[i32]) -> LastFrames
        requires few { frames ≤ 2 }
        requires limits { AreChannels channels }
        requires size { length samples.now ≡ frames * channels }
        ensures frames { result.frames ≡ frames }
        ensures channels { result.channels ≡ channels }
        ensures same { frames_kept result ≡ frames_of channels samples.now }
    {
        let len = frames * channels;
        let mut all = [0; 16];
        all[..len].copy_from_slice(samples);
        LastFrames {
            frames,
            channels,
            len,
            samples: all,
        }
    }

    /// Copies their samples.
    pub fn keep(&self, samples: &mut [i32])
        requires { length samples.old ≡ self.now.frames * self.now.channels }
        ensures { samples.new ≡ interleaved (frames_kept self.now) }
    {
        samples.copy_from_slice(self.samples());
    }

    /// Lends their samples.
    pub fn samples(&self) -> &[i32]
        ensures len { length result.now ≡ self.now.frames * self.now.channels }
        ensures value { frames_of self.now.channels result.now ≡ frames_kept self.now }
    {
        &self.samples[..self.len]
    }

    /// Takes in the first `eaten` frames of the input, in place of as many of the oldest.
    pub fn eat(&mut self, input: &[i32], eaten: usize)
        requires { eaten * self.old.channels ≤ length input.now }
        ensures kept { frames_kept self.new ≡ kept_after_eating self.old input.now eaten }
        ensures frames { self.new.frames ≡ self.old.frames }
        ensures channels { self.new.channels ≡ self.old.channels }
    {
        let mut samples = self.samples;
        move_on(&mut samples[..self.len], &input[..eaten * self.channels]);
        self.samples = samples;
    }
}
