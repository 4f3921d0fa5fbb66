//! Where the frames of a block lie between its stages.

ghost use Rattle.std.specs.Prelude.{◌≡◌, ◌≤◌, ◌+◌, ◌*◌, ◌/◌, min, length, take, All};
ghost use Rattle.pcm_sequence.specs.Fixed.{fixed_items, fixed_len};
ghost use Rattle.pcm_num.specs.Limit.{FitsBits};
ghost use Rattle.pcm_format.specs.Formats.{bits_of, bytes_of};
ghost use Rattle.pcm_format.specs.Samples.{samples, spelled};
ghost use Rattle.pcm_ring.specs.Ring.{free_bytes};
ghost use Rattle.pcm_chain.specs.Rings.{staged, with_samples, without_bytes};
ghost use Rattle.pcm_feeder.specs.Limits.{AreChannels};
ghost use Rattle.pcm_chain.specs.declared.staging.TheConstants.{BLOCK_FRAMES, BLOCK_SAMPLES, BLOCK_BYTES};

use pcm_format::{Format, load_frames, spell_frames};
use pcm_ring::ByteRing;
use pcm_sequence::Fixed;
use std::alloc::{AllocError, Global};

/// How many frames go through the stages at once, at most.
pub const BLOCK_FRAMES: usize = 256;

/// The samples of a block of eight channels.
pub const BLOCK_SAMPLES: usize = 2048;

// Their bytes in the widest format.
const BLOCK_BYTES: usize = 8192;

/// The samples that the next stage takes, room for those that it gives, and room for bytes of a ring.
#[derive(Drop)]
pub struct Staging {
    pub now: Fixed<i32>,
    pub next: Fixed<i32>,
    bytes: Fixed<u8>,
    ghost now_size: { fixed_len now ≡ BLOCK_SAMPLES },
    ghost next_size: { fixed_len next ≡ BLOCK_SAMPLES },
    ghost bytes_size: { fixed_len bytes ≡ BLOCK_BYTES },
}

impl Staging {
    /// Room for a block. All memory of a chain is taken here.
    pub fn new(alloc: Global) -> Result<Staging, AllocError> {
        let now = Fixed::new(vec![in alloc; 0i32; BLOCK_SAMPLES]?);
        let next = Fixed::new(vec![in alloc; 0i32; BLOCK_SAMPLES]?);
        let bytes = Fixed::new(vec![in alloc; 0u8; BLOCK_BYTES]?);
        Ok(Staging { now, next, bytes })
    }

    /// Moves the oldest `count` samples of a ring to the front of `now`, and puts `silent` ones after them.
    pub fn load(&mut self, ring: &mut ByteRing, format: Format, count: usize, silent: usize)
        requires within { count + silent ≤ BLOCK_SAMPLES }
        requires waiting { count * bytes_of format ≤ length ring.old.bytes }
        ensures ring { ring.new ≡ without_bytes (count * bytes_of format) ring.old }
        ensures loaded { take (count + silent) (fixed_items self.new.now)
            ≡ staged format count silent ring.old }
    {
        load_front(ring, format, count, &mut self.bytes, &mut self.now);
        self.now[count..count + silent].fill(0);
    }

    /// Copies samples to the front of `now`.
    pub fn copy(&mut self, samples: &[i32])
        requires within { length samples.now ≤ BLOCK_SAMPLES }
        ensures loaded { take (length samples.now) (fixed_items self.new.now) ≡ samples.now }
        ensures fits { All (FitsBits 32) samples.now }
    {
        copy_front(samples, &mut self.now);
    }

    /// Spells the first of `count` frames after what waits in a ring, as many as have room. Returns how many these are.
    pub fn spell(
        &mut self,
        samples: &[i32],
        channels: usize,
        count: usize,
        ring: &mut ByteRing,
        format: Format,
    ) -> usize
        requires channels { AreChannels channels }
        requires count { count ≤ BLOCK_FRAMES }
        requires samples { count * channels ≤ length samples.now }
        requires range { All (FitsBits (bits_of format)) (take (count * channels) samples.now) }
        ensures kept { result ≡ min count (free_bytes ring.old / (channels * bytes_of format)) }
        ensures ring { ring.new ≡ with_samples format (take (result * channels) samples.now) ring.old }
    {
        let size = channels * format.bytes();
        let kept = count.min(ring.free() / size);
        spell_behind(ring, format, &samples[..kept * channels], &mut self.bytes);
        kept
    }

    /// The samples given are those that the next stage takes.
    pub fn turn(&mut self)
        ensures { fixed_items self.new.now ≡ fixed_items self.old.next }
    {
        std::mem::swap(&mut self.now, &mut self.next);
    }
}

// Moves the oldest `count` samples of a ring to the front of `frames`. The bytes are scratch.
fn load_front(
    ring: &mut ByteRing,
    format: Format,
    count: usize,
    bytes: &mut [u8],
    frames: &mut [i32],
)
    requires waiting { count * bytes_of format ≤ length ring.old.bytes }
    requires bytes { count * bytes_of format ≤ length bytes.old }
    requires frames { count ≤ length frames.old }
    ensures ring { ring.new ≡ without_bytes (count * bytes_of format) ring.old }
    ensures loaded { take count frames.new
        ≡ samples format (take (count * bytes_of format) ring.old.bytes) }
{
    let taken = &mut bytes[..count * format.bytes()];
    ring.take(taken);
    load_frames(format, taken, &mut frames[..count]);
}

// Copies samples to the front of `frames`.
fn copy_front(samples: &[i32], frames: &mut [i32])
    requires within { length samples.now ≤ length frames.old }
    ensures loaded { take (length samples.now) frames.new ≡ samples.now }
    ensures fits { All (FitsBits 32) samples.now }
{
    for i in 0..samples.len() {
        frames[i] = samples[i];
    }
}

// Spells samples after what waits in a ring that has room for them. The bytes are scratch.
fn spell_behind(ring: &mut ByteRing, format: Format, samples: &[i32], bytes: &mut [u8])
    requires bytes { length samples.now * bytes_of format ≤ length bytes.old }
    requires room { length samples.now * bytes_of format ≤ free_bytes ring.old }
    requires range { All (FitsBits (bits_of format)) samples.now }
    ensures ring { ring.new ≡ with_samples format samples.now ring.old }
{
    let spelled = &mut bytes[..samples.len() * format.bytes()];
    spell_frames(format, samples, spelled);
    ring.put(spelled);
}
