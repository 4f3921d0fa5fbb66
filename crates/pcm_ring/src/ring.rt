//! The ring of bytes.
ghost use Rattle.std.specs.Prelude.{◌≡◌, ◌+◌, ◌≤◌, ◌++◌, [], length, take, drop, min, IfOk};
ghost use Rattle.pcm_ring.specs.Ring.{empty_ring, free_bytes};

use circular_buffer::HeapCircularBuffer;
use std::alloc::{AllocError, Global};
use std::marker::Model;

/// A queue of at most `size` bytes, the oldest first. It has room for `max`.
#[derive(Drop)]
pub struct ByteRing {
    buffer: HeapCircularBuffer<u8>,
    size: usize,
}

impl Model for ByteRing {
    ghost use Rattle.pcm_ring.specs.Ring.{Ring};
    ghost use Rattle.std.specs.Prelude.{◌≤◌, length};

    ghost Value = { Ring };

    ghost view = { λ r. record { bytes = r.buffer.items; size = r.size; max = r.buffer.capacity } };

    ghost invariant = { λ r. (length r.buffer.items ≤ r.size) × (r.size ≤ r.buffer.capacity) };
}

impl ByteRing {
    /// An empty ring of `max` bytes.
    pub fn new(alloc: Global, max: usize) -> Result<ByteRing, AllocError>
        ensures ok { IfOk result (λ made. made ≡ empty_ring max) }
    {
        let buffer = HeapCircularBuffer::with_capacity(alloc, max)?;
        Ok(ByteRing { buffer, size: max })
    }

    /// Makes an empty ring hold at most `n` bytes, of those for which there is room.
    pub fn set_size(&mut self, n: usize)
        requires empty { self.old.bytes ≡ [] }
        requires room { n ≤ self.old.max }
        ensures { self.new ≡ record self.old { size = n } }
    {
        self.size = n;
    }

    /// How many bytes wait.
    pub fn fill(&self) -> usize
        ensures count { result ≡ length self.now.bytes }
        ensures within { result ≤ self.now.size }
    {
        self.buffer.len()
    }

    /// How many more bytes fit.
    pub fn free(&self) -> usize
        ensures count { result ≡ free_bytes self.now }
        ensures whole { length self.now.bytes + result ≡ self.now.size }
    {
        self.size - self.fill()
    }

    /// Puts bytes at the back until the ring is full. Returns how many of `bytes` went in.
    pub fn put(&mut self, bytes: &[u8]) -> usize
        ensures count { result ≡ min (length bytes.now) (free_bytes self.old) }
        ensures kept { self.new
            ≡ record self.old { bytes = self.old.bytes ++ take result bytes.now } }
    {
        let count = bytes.len().min(self.free());
        self.buffer.fill_from_slice(&bytes[..count])
    }

    /// Fills `out` from its start with the bytes that have waited longest. Returns how many there were.
    pub fn take(&mut self, out: &mut [u8]) -> usize
        ensures count { result ≡ min (length out.old) (length self.old.bytes) }
        ensures moved { out.new ≡ take result self.old.bytes ++ drop result out.old }
        ensures left { self.new ≡ record self.old { bytes = drop result self.old.bytes } }
    {
        self.buffer.read_into(out)
    }

    /// Copies the bytes that wait, and leaves them.
    pub fn copy_to(&self, out: &mut [u8])
        requires { length out.old ≡ length self.now.bytes }
        ensures { out.new ≡ self.now.bytes }
    {
        let (front, back) = self.buffer.as_slices();
        out[..front.len()].copy_from_slice(front);
        out[front.len()..].copy_from_slice(back);
    }

    /// Holds the bytes that another ring holds, and is of its size, for which there is room.
    pub fn copy_from(&mut self, other: &ByteRing)
        requires { other.now.size ≤ self.old.max }
        ensures { self.new ≡ record other.now { max = self.old.max } }
    {
        self.clear();
        self.set_size(other.size);
        let (front, back) = other.buffer.as_slices();
        self.put(front);
        self.put(back);
    }

    /// Drops all bytes that wait.
    pub fn clear(&mut self)
        ensures { self.new ≡ record self.old { bytes = [] } }
    {
        self.buffer.clear();
    }
}
