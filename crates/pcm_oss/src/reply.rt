//! The reply to an event.

ghost use Rattle.std.specs.Prelude.{◌≡◌, ◌≤◌, [], length, take, IfOk};
ghost use Rattle.pcm_oss.specs.Replies.{bytes_due};

use pcm_sequence::Fixed;
use std::alloc::{AllocError, Global};
use std::marker::Model;

/// Why an event was refused. A refused event changes nothing.
#[derive(Clone, Copy, Debug, PartialEq, Eq)]
pub enum Errno {
    /// The ring has no room for a write now, or no byte for a read.
    Again,
    /// No slot is free, or the channel's state doesn't allow it.
    Busy,
    /// The request is of the other way, or its argument is outside its set.
    Inval,
    /// The descriptor isn't open.
    BadF,
    /// The descriptor is open already.
    Exist,
}

/// The answer to an accepted event.
#[derive(Clone, Copy, Debug, PartialEq, Eq)]
pub enum Answer {
    Done,
    Number(u32),
    /// The room of a ring: whole fragments, fragments in all, and bytes.
    Space {
        fragments: u32,
        fragstotal: u32,
        fragsize: u32,
        bytes: u32,
    },
    /// A position: bytes since the opening or its last halt, fragments that were passed since the last such answer, and the
    /// place in the ring.
    Pointer {
        bytes: u64,
        blocks: u64,
        ptr: u32,
    },
    /// Shortages of playing and of recording.
    Errors {
        underruns: u32,
        overruns: u32,
    },
    /// How many bytes a read got; the bytes themselves stand beside the answer.
    Got(u32),
}

/// How many bytes a reply has at most, beside its answer.
pub const REPLY_BYTES: usize = 4096;

/// Holds the reply of one event: its result, and the bytes that a read got.
#[derive(Debug, Drop)]
pub struct ReplyBuf {
    result: Result<Answer, Errno>,
    bytes: Fixed<u8>,
    count: usize,
}

impl Model for ReplyBuf {
    ghost use Rattle.std.specs.Prelude.{◌≡◌, ◌≤◌, length, take};
    ghost use Rattle.pcm_sequence.specs.Fixed.{fixed_items};
    ghost use Rattle.pcm_oss.specs.Replies.{Reply};
    ghost use Rattle.pcm_oss.specs.declared.reply.TheConstants.{REPLY_BYTES};

    ghost Value = { Reply };

    ghost view = { λ buffer. record { result = buffer.result; bytes = take buffer.count (fixed_items buffer.bytes) } };

    ghost invariant = { λ buffer. (length (fixed_items buffer.bytes) ≡ REPLY_BYTES) × (buffer.count ≤ REPLY_BYTES) };
}

impl ReplyBuf {
    ghost use Rattle.pcm_oss.specs.declared.reply.TheConstants.{REPLY_BYTES};

    /// Begins with the reply of an event that has no more to say. All memory of the buffer is taken here.
    pub fn new(alloc: Global) -> Result<ReplyBuf, AllocError>
        ensures { IfOk result (λ made. made ≡ record { result = Ok Answer.Done; bytes = [] }) }
    {
        Ok(ReplyBuf {
            result: Ok(Answer::Done),
            bytes: Fixed::new(vec![in alloc; 0; REPLY_BYTES]?),
            count: 0,
        })
    }

    /// Makes this the reply, with the front of `bytes`: as many as a read got, and none with any other result.
    pub fn keep(&mut self, reply: Result<Answer, Errno>, bytes: &[u8])
        requires due { bytes_due reply ≤ length bytes.now }
        requires few { bytes_due reply ≤ REPLY_BYTES }
        ensures { self.new ≡ record { result = reply; bytes = take (bytes_due reply) bytes.now } }
    {
        let count = bytes_due(reply);
        self.result = reply;
        self.count = count;
        copy_front(&bytes[..count], &mut self.bytes);
    }

    /// The result that was kept last.
    pub fn result(&self) -> Result<Answer, Errno>
        ensures { result ≡ self.now.result }
    {
        self.result
    }

    /// The bytes that were kept last.
    pub fn bytes(&self) -> &[u8]
        ensures value { result.now ≡ self.now.bytes }
        ensures few { length result.now ≤ REPLY_BYTES }
    {
        &self.bytes[..self.count]
    }
}

// How many bytes come with a reply.
fn bytes_due(reply: Result<Answer, Errno>) -> usize
    ensures { result ≡ bytes_due reply }
{
    match reply {
        Ok(Answer::Got(count)) => count as usize,
        _ => 0,
    }
}

// Copies bytes to the front of others.
fn copy_front(bytes: &[u8], out: &mut [u8])
    requires { length bytes.now ≤ length out.old }
    ensures front { take (length bytes.now) out.new ≡ bytes.now }
    ensures length { length out.new ≡ length out.old }
{
    out[..bytes.len()].copy_from_slice(bytes);
}
