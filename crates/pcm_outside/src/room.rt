//! Bytes in a room of a fixed length, which a form in memory fills.
ghost use Rattle.std.specs.Prelude.{◌≡◌, ◌+◌, ◌++◌, ◌≤◌, [], length, nat_lt, take, IfOk};

use pcm_sequence::Fixed;
use std::alloc::{AllocError, Global};
use std::marker::Model;

/// The bytes that were put so far, at the front of a room that was taken whole: nothing in it can grow.
#[derive(Drop)]
pub(crate) struct Room {
    bytes: Fixed<u8>,
    count: usize,
}

impl Model for Room {
    ghost use Rattle.std.specs.Prelude.{◌≤◌, take};
    ghost use Rattle.pcm_sequence.specs.Fixed.{fixed_items, fixed_len};
    ghost use Rattle.pcm_outside.specs.Rooms.{Filled};

    ghost Value = { Filled };

    ghost view = { λ room. record { room = fixed_len room.bytes; bytes = take room.count (fixed_items room.bytes) } };

    ghost invariant = { λ room. room.count ≤ fixed_len room.bytes };
}

impl Room {
    /// Takes the memory for `room` bytes, of which none is put.
    pub(crate) fn new(alloc: Global, room: usize) -> Result<Room, AllocError>
        ensures { IfOk result (λ made. made ≡ record { room = room; bytes = [] }) }
    {
        let bytes = Fixed::new(vec![in alloc; 0u8; room]?);
        Ok(Room { bytes, count: 0 })
    }

    /// The bytes that were put so far.
    pub(crate) fn as_slice(&self) -> &[u8]
        ensures { result.now ≡ self.now.bytes }
    {
        &self.bytes[..self.count]
    }

    /// Whether there is no room for `more` more bytes.
    pub(crate) fn lacks(&self, more: usize) -> bool
        ensures { result ≡ nat_lt self.now.room (length self.now.bytes + more) }
    {
        self.bytes[..].len() - self.count < more
    }

    /// Drops all that was put.
    pub(crate) fn clear(&mut self)
        ensures { self.new ≡ record self.old { bytes = [] } }
    {
        self.count = 0;
    }

    /// Puts a piece after what was put before.
    pub(crate) fn put(&mut self, piece: &[u8])
        requires { length self.old.bytes + length piece.now ≤ self.old.room }
        ensures { self.new ≡ record self.old { bytes = self.old.bytes ++ piece.now } }
    {
        let end = self.count + piece.len();
        copy_to(piece, self.count, &mut self.bytes);
        self.count = end;
    }
}

// Copies a piece to a place.
fn copy_to(piece: &[u8], at: usize, bytes: &mut [u8])
    requires { at + length piece.now ≤ length bytes.old }
    ensures put { take (at + length piece.now) bytes.new ≡ take at bytes.old ++ piece.now }
    ensures length { length bytes.new ≡ length bytes.old }
{
    bytes[at..at + piece.len()].copy_from_slice(piece);
}
