//! Sections one after another, and what is kept of their frames.

ghost use Rattle.std.specs.Prelude.{◌≡◌, ◌≤◌, ◌+◌, ◌*◌, ◌%◌, length, replicate, All};
ghost use Rattle.pcm_feeder.specs.Limits.{AreChannels, IsSection};
ghost use Rattle.pcm_feeder.specs.Sections.{sections_on, past_behind};
ghost use Rattle.pcm_feeder.specs.Streams.{frames_of, interleaved, silence};
ghost use Rattle.feed_eq.specs.Pairs.{IsPair};

use crate::pass::pass;
use pcm_feeder::{LastFrames, SECTIONS, Section};

/// What sections keep of frames of `channels` channels: the last two frames of the input, and
/// after them those of each section's outputs.
#[derive(Drop)]
pub struct Equaliser {
    pub channels: usize,
    pub sections: usize,
    lasts: [LastFrames; SECTIONS + 1],
    ghost limits: { AreChannels channels },
    ghost few: { sections ≤ 4 },
    ghost room: { length lasts ≡ 5 },
    ghost pairs: { All (IsPair channels) lasts },
}

impl Equaliser {
    ghost use Rattle.feed_eq.specs.Lanes.{BecomeFrames};
    ghost use Rattle.feed_eq.specs.Equalisers.{tail_of, CanEqualise, IsFittedTo};

    /// At the begin of a stream.
    pub fn silent(channels: usize, sections: usize) -> Equaliser
        requires { CanEqualise channels sections }
        ensures fit { IsFittedTo channels sections result }
        ensures silence { tail_of result ≡ replicate (2 + 2 * sections) (silence channels) }
    {
        let last = LastFrames::silent(2, channels);
        Equaliser {
            channels,
            sections,
            lasts: [last; SECTIONS + 1],
        }
    }

    /// With these frames kept, interleaved.
    pub fn of(channels: usize, sections: usize, samples: &[i32]) -> Equaliser
        requires can { CanEqualise channels sections }
        requires size { length samples.now ≡ (2 + 2 * sections) * channels }
        ensures fit { IsFittedTo channels sections result }
        ensures same { tail_of result ≡ frames_of channels samples.now }
    {
        let count = 2 * channels;
        let mut lasts = [LastFrames::silent(2, channels); SECTIONS + 1];
        for at in 0..sections + 1 {
            let first = at * count;
            lasts[at] = LastFrames::of(2, channels, &samples[first..first + count]);
        }
        Equaliser {
            channels,
            sections,
            lasts,
        }
    }

    /// Copies the frames kept, interleaved.
    pub fn keep(&self, samples: &mut [i32])
        requires { length samples.old ≡ (2 + 2 * self.now.sections) * self.now.channels }
        ensures { samples.new ≡ interleaved (tail_of self.now) }
    {
        let count = 2 * self.channels;
        for at in 0..self.sections + 1 {
            let first = at * count;
            samples[first..first + count].copy_from_slice(self.lasts[at].samples());
        }
    }

    /// Puts samples through the sections, in their place.
    pub fn pass(&mut self, sections: &[Section], samples: &mut [i32])
        requires sections { All IsSection sections.now }
        requires count { length sections.now ≡ self.old.sections }
        requires whole_frames { length samples.old % self.old.channels ≡ 0 }
        ensures fit { IsFittedTo self.old.channels self.old.sections self.new }
        ensures kept { tail_of self.new ≡ past_behind self.old.channels sections.now
            (tail_of self.old) (frames_of self.old.channels samples.old) }
        ensures made { BecomeFrames (sections_on self.old.channels sections.now (tail_of self.old)
            (frames_of self.old.channels samples.old)) samples.old samples.new }
    {
        let (channels, mut lasts) = (self.channels, self.lasts);
        let frames = samples.len() / channels;
        for at in 0..sections.len() {
            let last = lasts[at];
            lasts[at].eat(samples, frames);
            let output = lasts[at + 1].samples();
            pass(sections[at], channels, last.samples(), output, samples);
        }
        lasts[sections.len()].eat(samples, frames);
        self.lasts = lasts;
    }
}
