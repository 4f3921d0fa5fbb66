//! What is recorded: the frames of a data file, then silence.

ghost use Rattle.std.specs.Prelude.{◌≡◌, ◌+◌, ◌*◌, ◌≤◌, ℕ, All, length, option_map};
ghost use Rattle.std.specs.List.{flat_map, range_with_len};
ghost use Rattle.pcm_num.specs.Limit.{FitsBits};
ghost use Rattle.pcm_format.specs.Frames.{frame_at, frame_bytes};
ghost use Rattle.pcm_format.specs.Layouts.{channels_of};
ghost use Rattle.pcm_wave.specs.Pools.{IsCaptureIn, capture_of, captured_frame, captured_frames, frame_or_silence};

use crate::{DataFile, Pool};
use pcm_format::{Layout, Settings, load_frames};

impl Pool {
    /// Loads `frames` frames of what is recorded, from frame `from` on. Without a file to record from, all are silent.
    pub fn load_captured(&self, layout: Layout, from: u64, frames: usize, out: &mut [i32])
        requires captures { IsCaptureIn layout self.now }
        requires room { length out.old ≡ frames * channels_of layout }
        ensures loaded { out.new
            ≡ flat_map (λ frame. frame) (captured_frames layout self.now from frames) }
        ensures fits { (k : ℕ) → All (FitsBits 32) (captured_frame layout self.now k) }
    {
        match self.captured() {
            Some(file) => load_from(file.wave().settings(), file.body(), from, frames, out),
            None => out.fill(0),
        }
    }

    // The file that is recorded from.
    fn captured(&self) -> Option<&DataFile>
        ensures { option_map (λ file. file.now) result ≡ capture_of self.now }
    {
        match self.capture {
            Some(place) => self.files.as_slice().get(place),
            None => None,
        }
    }
}

// Loads `frames` frames of a body, from frame `from` on, and silence where it has no more.
fn load_from(settings: Settings, body: &[u8], from: u64, frames: usize, out: &mut [i32])
    requires room { length out.old ≡ frames * channels_of settings.layout }
    ensures loaded { out.new
        ≡ flat_map (frame_or_silence settings body.now) (range_with_len from frames) }
    ensures fits { (k : ℕ) → All (FitsBits 32) (frame_or_silence settings body.now k) }
{
    let whole = body.len() / settings.frame_bytes();
    let first = from.min(whole as u64) as usize;
    let count = frames.min(whole - first);
    let (there, behind) = out.split_at_mut(count * settings.layout.channels());
    load_part(settings, body, first, count, there);
    behind.fill(0);
}

// Loads `count` frames of a body, from frame `first` on.
fn load_part(settings: Settings, body: &[u8], first: usize, count: usize, out: &mut [i32])
    requires room { length out.old ≡ count * channels_of settings.layout }
    requires there { (first + count) * frame_bytes settings ≤ length body.now }
    ensures { out.new ≡ flat_map (frame_at settings body.now) (range_with_len first count) }
{
    let size = settings.frame_bytes();
    let part = &body[first * size..(first + count) * size];
    load_frames(settings.format, part, out);
}
