//! The last frames of a stream.

ghost use Rattle.std.specs.Prelude.{◌≡◌, ◌<◌, ◌≤◌, ◌+◌, ◌*◌, [], ◌∷◌, length, replicate, IfOk};
ghost use Rattle.pcm_sequence.specs.Fixed.{fixed_items, fixed_len};
ghost use Rattle.pcm_feeder.specs.Limits.{AreChannels};
ghost use Rattle.pcm_feeder.specs.declared.limits.TheConstants.{TAPS};
ghost use Rattle.pcm_feeder.specs.Streams.{frames_of, interleaved, silence, moved_on};
ghost use Rattle.feed_poly.specs.Places.{IsTwice, ArePut, window_frame};
ghost use Rattle.feed_poly.specs.Rows.{channel_in};

use pcm_sequence::Fixed;
use std::alloc::{AllocError, Global};

// The places of one channel: two for each frame.
const PLACES: usize = 128;

// Those of eight channels.
const SAMPLES: usize = 1024;

/// The last `taps` frames of a stream. Each channel has its samples by itself, and each of them at
/// two places, `taps` apart: so the last `taps` ones lie side by side, from the place on where the
/// next goes, and nothing moves when it comes.
#[derive(Drop)]
pub struct Window {
    samples: Fixed<i32>,
    channels: usize,
    taps: usize,
    at: usize,
    ghost size: { fixed_len samples ≡ 1024 },
    ghost limits: { AreChannels channels },
    ghost some: { 1 ≤ taps },
    ghost most: { taps ≤ TAPS },
    ghost inside: { at < taps },
    ghost twice: { IsTwice taps (fixed_items samples) },
}

impl Window {
    ghost use Rattle.feed_poly.specs.Window.{frames_after, window_frames};

    /// A silent window. All memory is taken here, for 64 frames of eight channels.
    pub fn new(alloc: Global) -> Result<Window, AllocError>
        ensures { IfOk result (λ made. window_frames made ≡ replicate made.taps (silence made.channels)) }
    {
        let samples = Fixed::new(vec![in alloc; 0i32; SAMPLES]?);
        Ok(Window {
            samples,
            channels: 1,
            taps: 2,
            at: 0,
        })
    }

    /// Begins again with `taps` silent frames.
    pub fn clear(&mut self, channels: usize, taps: usize)
        requires limits { AreChannels channels }
        requires some { 1 ≤ taps }
        requires most { taps ≤ TAPS }
        ensures frames { window_frames self.new ≡ replicate taps (silence channels) }
        ensures channels { self.new.channels ≡ channels }
        ensures taps { self.new.taps ≡ taps }
    {
        self.samples.fill(0);
        self.channels = channels;
        self.taps = taps;
        self.at = 0;
    }

    /// Begins again with `taps` frames, interleaved.
    pub fn resume(&mut self, channels: usize, taps: usize, samples: &[i32])
        requires limits { AreChannels channels }
        requires some { 1 ≤ taps }
        requires most { taps ≤ TAPS }
        requires size { length samples.now ≡ taps * channels }
        ensures frames { window_frames self.new ≡ frames_of channels samples.now }
        ensures channels { self.new.channels ≡ channels }
        ensures taps { self.new.taps ≡ taps }
    {
        self.clear(channels, taps);
        self.eat(channels, samples, 0, taps);
    }

    /// Copies the frames, interleaved.
    pub fn keep(&self, samples: &mut [i32])
        requires { length samples.old ≡ self.now.taps * self.now.channels }
        ensures { samples.new ≡ interleaved (window_frames self.now) }
    {
        let channels = self.channels;
        for k in 0..self.taps {
            let at = k * channels;
            self.copy_frame(k, &mut samples[at..at + channels]);
        }
    }

    // Copies a frame, counted from the oldest.
    fn copy_frame(&self, k: usize, frame: &mut [i32])
        requires there { k < self.now.taps }
        requires room { length frame.old ≡ self.now.channels }
        ensures { frame.new ≡ window_frame self.now.channels (fixed_items self.now.samples) (self.now.at + k) }
    {
        let at = self.at + k;
        for channel in 0..self.channels {
            frame[channel] = self.samples[channel * PLACES + at];
        }
    }

    /// Takes in the frames of the input from one place to another, in place of as many of the oldest.
    /// Each call has the loop for itself: where it knows the channels, a frame is put without one.
    #[inline(always)]
    pub fn eat(&mut self, channels: usize, input: &[i32], from: usize, to: usize)
        requires channels { channels ≡ self.old.channels }
        requires order { from ≤ to }
        requires there { to * channels ≤ length input.now }
        ensures frames { window_frames self.new ≡ frames_after self.old input.now from to }
        ensures channels { self.new.channels ≡ self.old.channels }
        ensures taps { self.new.taps ≡ self.old.taps }
    {
        for k in from..to {
            let at = k * channels;
            self.push(&input[at..at + channels]);
        }
    }

    // Takes in a frame, in place of the oldest.
    #[inline(always)]
    fn push(&mut self, frame: &[i32])
        requires { length frame.now ≡ self.old.channels }
        ensures frames { window_frames self.new ≡ moved_on (window_frames self.old) (frame.now ∷ []) }
        ensures channels { self.new.channels ≡ self.old.channels }
        ensures taps { self.new.taps ≡ self.old.taps }
    {
        let (taps, at) = (self.taps, self.at);
        put_twice(&mut self.samples, taps, at, frame);
        let next = at + 1;
        self.at = if next == taps { 0 } else { next };
    }

    /// Lends the samples of a channel in all frames.
    pub fn channel(&self, channel: usize) -> &[i32]
        requires { channel < self.now.channels }
        ensures value { result.now ≡ channel_in channel (window_frames self.now) }
        ensures len { length result.now ≡ self.now.taps }
    {
        let at = channel * PLACES + self.at;
        &self.samples[at..at + self.taps]
    }

    /// How many channels a frame has.
    pub fn channels(&self) -> usize
        ensures { result ≡ self.now.channels }
    {
        self.channels
    }
}

// Writes each sample of a frame at a place of its channel, and again `taps` places later.
#[inline(always)]
fn put_twice(samples: &mut [i32], taps: usize, at: usize, frame: &[i32])
    requires size { length samples.old ≡ 1024 }
    requires most { taps ≤ TAPS }
    requires inside { at < taps }
    requires channels { length frame.now ≤ 8 }
    ensures { ArePut taps at frame.now (length frame.now) samples.old samples.new }
{
    for (channel, sample) in frame.iter().enumerate() {
        let place = channel * PLACES + at;
        samples[place] = *sample;
        samples[place + taps] = *sample;
    }
}
