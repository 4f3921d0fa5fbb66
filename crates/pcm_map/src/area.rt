//! The bytes of an area: silent ones, and those that are taken in turn.

ghost use Rattle.std.specs.Prelude.{◌≡◌, ◌≤◌, ◌<◌, ◌+◌, ◌-◌, ◌++◌, ◌%◌, drop, length, map, min, take, slice_index_or, if◌then◌else◌};
ghost use Rattle.std.specs.List.{range_with_len};
ghost use Rattle.pcm_oss.specs.declared.fragments.TheConstants.{RING_BYTES};
ghost use Rattle.pcm_oss.specs.Fragments.{AreFragments};
ghost use Rattle.pcm_ring.specs.Ring.{free_bytes};
ghost use Rattle.pcm_desk.specs.Openings.{ring_bytes};
ghost use Rattle.pcm_sound.specs.Areas.{area_bytes, is_recut, silent_area, silent_byte};

use pcm_desk::Opening;
use pcm_format::{Format, spell};
use pcm_ring::ByteRing;

// Whether an opening has another area than it had: of another format, other channels or other fragments.
fn is_recut(old: &Opening, new: &Opening) -> bool
    ensures { result ≡ is_recut old.now new.now }
{
    old.settings.format.code() != new.settings.format.code()
        || old.settings.layout.channels() != new.settings.layout.channels()
        || old.fragments.count != new.fragments.count
        || old.fragments.log != new.fragments.log
}

/// Makes the area of an opening silent where it has another one than the opening before it.
pub fn recut(area: &mut [u8], old: &Opening, new: &Opening)
    requires size { length area.old ≡ RING_BYTES }
    requires fragments { AreFragments new.now.fragments }
    ensures { take (ring_bytes new.now) area.new
        ≡ (if is_recut old.now new.now then silent_area new.now else take (ring_bytes old.now) area.old) }
{
    if is_recut(old, new) {
        silence(area, new);
    }
}

/// Makes the area of an opening silent.
pub fn silence(area: &mut [u8], opening: &Opening)
    requires size { length area.old ≡ RING_BYTES }
    requires fragments { AreFragments opening.now.fragments }
    ensures { take (ring_bytes opening.now) area.new ≡ silent_area opening.now }
{
    let size = opening.fragments.size() as usize;
    fill_silent(&mut area[..size], opening.settings.format);
}

/// Makes the first `size` bytes those of another area.
pub fn copy_front(area: &mut [u8], other: &[u8], size: usize)
    requires room { size ≤ length area.old }
    requires there { size ≤ length other.now }
    ensures { take size area.new ≡ take size other.now }
{
    area[..size].copy_from_slice(&other[..size]);
}

// Each byte is one of the spelling of 0.
fn fill_silent(bytes: &mut [u8], format: Format)
    ensures { bytes.new ≡ map (silent_byte format) (range_with_len 0 (length bytes.old)) }
{
    let mut sample = [0u8; 4];
    let silent = &mut sample[..format.bytes()];
    spell(format, 0, silent);
    repeat(silent, bytes);
}

// Fills with the bytes of a sample, over and over.
fn repeat(sample: &[u8], bytes: &mut [u8])
    requires { 0 < length sample.now }
    ensures { bytes.new
        ≡ map (λ b. slice_index_or sample.now (b % length sample.now) 0) (range_with_len 0 (length bytes.old)) }
{
    let first = sample.len().min(bytes.len());
    bytes[..first].copy_from_slice(&sample[..first]);
    let mut filled = first;
    while filled < bytes.len() {
        filled += double(bytes, filled);
    }
}

// Copies the first `filled` bytes after themselves, as many as have room there. Returns how many these are.
fn double(bytes: &mut [u8], filled: usize) -> usize
    requires { filled ≤ length bytes.old }
    ensures count { result ≡ min filled (length bytes.old - filled) }
    ensures bytes { bytes.new ≡ take filled bytes.old ++ (take result bytes.old ++ drop (filled + result) bytes.old) }
{
    let (front, rest) = bytes.split_at_mut(filled);
    let count = filled.min(rest.len());
    rest[..count].copy_from_slice(&front[..count]);
    count
}

/// Puts `count` bytes of an area into a ring, from the byte at `from` on. After the last byte of the area comes the first.
pub fn put_round(ring: &mut ByteRing, area: &[u8], from: u64, count: usize)
    requires some { 0 < length area.now }
    requires room { count ≤ free_bytes ring.old }
    ensures { ring.new ≡ record ring.old { bytes = ring.old.bytes ++ area_bytes area.now from count } }
{
    let mut place = (from % area.len() as u64) as usize;
    let mut left = count;
    while left > 0 {
        let part = left.min(area.len() - place);
        ring.put(&area[place..place + part]);
        left -= part;
        place = 0;
    }
}
