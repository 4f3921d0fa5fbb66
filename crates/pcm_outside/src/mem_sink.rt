//! A sink in memory whose listed puts fail.
ghost use Rattle.std.specs.Prelude.{◌≡◌, IfOk, OnOk, OnErr, is_err};
ghost use Rattle.pcm_outside.specs.Results.{DoesPut, IsDoneOrNot};
ghost use Rattle.pcm_outside.specs.Buffer.{empty_buffer, with_listed_put, buffer_seen, put_fails, after_put, after_failed_put};

use crate::calls::CallList;
use crate::outside::{Sink, WriteFault};
use crate::room::Room;
use std::alloc::{AllocError, Global};
use std::marker::Model;

/// A sink in memory. The puts that are listed fail, and all that is put fits the room it was made with, which can't grow.
#[derive(Drop)]
pub struct MemSink {
    bytes: Room,
    calls: CallList,
    faults: u64,
}

impl Model for MemSink {
    ghost use Rattle.pcm_outside.specs.Buffer.{Buffer};

    ghost Value = { Buffer };

    ghost view = { λ s. record { room = s.bytes.room; bytes = s.bytes.bytes; calls = s.calls; faults = s.faults } };
}

impl MemSink {
    /// Makes an empty sink, and takes the memory for `room` bytes.
    pub fn new(alloc: Global, room: usize) -> Result<MemSink, AllocError>
        ensures { IfOk result (λ sink. sink ≡ empty_buffer room) }
    {
        let bytes = Room::new(alloc, room)?;
        Ok(MemSink {
            bytes,
            calls: CallList::new(alloc),
            faults: 0,
        })
    }

    /// Makes the put of this number fail. The first one has number 1.
    pub fn fail_at(&mut self, call: u32) -> Result<(), AllocError>
        ensures { IsDoneOrNot self.old self.new (with_listed_put self.old call) result }
    {
        self.calls.fail_at(call)
    }

    /// The bytes put so far.
    pub fn bytes(&self) -> &[u8]
        ensures { result.now ≡ self.now.bytes }
    {
        self.bytes.as_slice()
    }
}

impl Sink for MemSink {
    ghost seen = { buffer_seen };

    fn put(&mut self, piece: &[u8]) -> Result<(), WriteFault>
        ensures does { DoesPut (buffer_seen self.old) (buffer_seen self.new) piece.now result }

        // It fails exactly at a listed call, and where more than the room would be put.
        ensures fails { is_err result ≡ put_fails self.old piece.now }
        ensures after { OnOk result (self.new ≡ after_put self.old piece.now) }
        ensures after_failed { OnErr result (self.new ≡ after_failed_put self.old) }
    {
        if self.calls.count() || self.bytes.lacks(piece.len()) {
            self.faults = self.faults.saturating_add(1);
            return Err(WriteFault);
        }
        self.bytes.put(piece);
        Ok(())
    }
}
