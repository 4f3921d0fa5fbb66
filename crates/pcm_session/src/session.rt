//! The session, and its calls.

ghost use Rattle.std.specs.Prelude.{◌≡◌, ◌≤◌, true, false, IfErr, IfOk, IsErr, IsOk, OnErr, [], length, take, drop};
ghost use Rattle.pcm_desk.specs.Device.{seen, IsInLimits};
ghost use Rattle.pcm_desk.specs.Events.{bytes_handed};
ghost use Rattle.pcm_engine.specs.Clones.{IsCloneOf};
ghost use Rattle.pcm_engine.specs.declared.limits.TheConstants.{LIFE};
ghost use Rattle.pcm_engine.specs.Engines.{device_of, AreReady, Stands};
ghost use Rattle.pcm_feeder.specs.Racks.{AreRacks, list_of};
ghost use Rattle.pcm_sequence.specs.Fixed.{fixed_items, fixed_len};
ghost use Rattle.pcm_session.specs.Beginnings.{CanBeCloned, first_reply};
ghost use Rattle.pcm_session.specs.Steps.{IsCallStep};
ghost use Rattle.pcm_session.specs.Taken.{fault_of, frames_left, has_right, is_left, is_taken, unheard_room};
ghost use Rattle.pcm_wave.specs.declared.pool.Pool.{Pool};

use crate::judge::is_allowed;
use pcm_desk::Device;
use pcm_engine::{EngineOf, LIFE, bytes_asked, bytes_handed, samples_asked};
use pcm_feeder::{Feeder, RacksOf, Tables};
use pcm_foreign::CallFault;
use pcm_oss::{Answer, Errno, Event, ReplyBuf};
use pcm_sequence::Fixed;
use std::alloc::{AllocError, Global};

/// An engine, with the reply to the last call.
#[derive(Drop)]
pub struct SessionOf<B> {
    pub(crate) engine: EngineOf<B>,
    reply: ReplyBuf,
    // the device's bytes of an interrupt that nobody hears
    unheard: Fixed<u8>,
    ghost room: { fixed_len unheard ≡ unheard_room (device_of engine) },
}

impl<B: Feeder> SessionOf<B> {
    /// The session of a device with its filters, before its first call. Its channels pick their stages from the racks. All memory is
    /// taken here.
    pub fn new(
        alloc: Global,
        device: Device,
        tables: Tables,
        racks: RacksOf<B>,
    ) -> Result<SessionOf<B>, AllocError>
        requires limits { IsInLimits (seen tables device) }
        requires kinds { AreRacks B.kind (list_of racks) }
        ensures device { IfOk result (λ session. device_of session.engine ≡ seen tables device) }
        ensures handed { IfOk result (λ session. session.engine.parent.handed ≡ 0) }
        ensures ready { IfOk result (λ session. AreReady B.kind B.kept session.engine) }
        ensures stands { IfOk result (λ session. (pool : Pool) → Stands B.kept session.engine pool []) }
        ensures reply { IfOk result (λ session. session.reply ≡ first_reply) }
    {
        let engine = EngineOf::new(alloc, device, tables, racks)?;
        let session = SessionOf::of(alloc, engine)?;
        Ok(session)
    }

    /// A session before its first call, whose engine goes on where that of this one is: whatever events this engine stands for, that one does
    /// too. Its channels pick their stages from the racks. Nothing of this session changes. All memory is taken here; after a refusal the racks
    /// are dropped.
    pub fn try_clone(&self, alloc: Global, racks: RacksOf<B>) -> Result<SessionOf<B>, AllocError>
        requires { CanBeCloned B.kind B.kept self.now.engine racks }
        ensures clone { IfOk result (λ session. IsCloneOf B.kind B.kept self.now.engine session.engine) }
        ensures reply { IfOk result (λ session. session.reply ≡ first_reply) }
    {
        let engine = self.engine.try_clone(alloc, racks)?;
        let session = SessionOf::of(alloc, engine)?;
        Ok(session)
    }

    // The session of an engine, before its first call.
    pub(crate) fn of(alloc: Global, engine: EngineOf<B>) -> Result<SessionOf<B>, AllocError>
        requires { IsInLimits (device_of engine) }
        ensures { IfOk result (λ session. (session.engine ≡ engine) × (session.reply ≡ first_reply)) }
    {
        let device = engine.device();
        let room = device.ring_frames as usize * device.settings.frame_bytes();
        let reply = ReplyBuf::new(alloc)?;
        let unheard = Fixed::new(vec![in alloc; 0u8; room]?);
        Ok(SessionOf {
            engine,
            reply,
            unheard,
        })
    }

    /// Takes one step on an event: with its bytes, if it is a write or a poke, and with what is captured, if it is an interrupt: samples at 32 bits,
    /// channel by channel, frame by frame, followed by silence. Returns how many bytes the device was given: they stand at the front of
    /// `out`, and the rest of `out` stays. Takes no memory.
    ///
    /// # Errors
    ///
    /// `Argument` where a number is outside its limits, or the event came with other bytes than it names, or with more samples than it captures
    /// or a part of a frame. `Worn` where the engine has fewer frames left, and `Room` where `out` is too small. Nothing has changed then.
    pub fn step(
        &mut self,
        event: &Event,
        bytes: &[u8],
        samples: &[i32],
        out: &mut [u8],
    ) -> Result<usize, CallFault>
        requires ready { AreReady B.kind B.kept self.old.engine }
        ensures ready { AreReady B.kind B.kept self.new.engine }
        ensures taken { IsOk result → is_taken (device_of self.old.engine) self.old.engine.parent.handed event.now
            (length bytes.now) (length samples.now) (length out.old) ≡ true }
        ensures refused { IsErr result → is_taken (device_of self.old.engine) self.old.engine.parent.handed event.now
            (length bytes.now) (length samples.now) (length out.old) ≡ false }
        ensures fault { IfErr result (λ fault. fault ≡ fault_of (device_of self.old.engine) self.old.engine.parent.handed event.now
            (length bytes.now) (length samples.now)) }
        ensures count { IfOk result (λ count. count ≡ bytes_handed (device_of self.old.engine) event.now) }
        ensures wrong { OnErr result ((self.new ≡ self.old) × (out.new ≡ out.old)) }
        ensures step { IfOk result (λ count. IsCallStep B.kept event.now bytes.now samples.now
            self.old.engine self.new.engine self.new.reply (take count out.new)) }
        ensures rest { IfOk result (λ count. drop count out.new ≡ drop count out.old) }
    {
        if !self.takes(event, bytes.len(), samples.len(), out.len()) {
            return Err(self.fault_of(event, bytes.len(), samples.len()));
        }
        let count = self
            .engine
            .step_with(event, bytes, samples, out, &mut self.reply);
        Ok(count)
    }

    /// Takes one step as `step` does, and drops the bytes for the device: nobody hears them. Returns how many they were.
    ///
    /// # Errors
    ///
    /// `Argument` and `Worn`, where `step` says so. Nothing has changed then.
    pub fn step_unheard(
        &mut self,
        event: &Event,
        bytes: &[u8],
        samples: &[i32],
    ) -> Result<usize, CallFault>
        requires ready { AreReady B.kind B.kept self.old.engine }
        ensures ready { AreReady B.kind B.kept self.new.engine }
        ensures taken { IsOk result → is_taken (device_of self.old.engine) self.old.engine.parent.handed event.now
            (length bytes.now) (length samples.now) (unheard_room (device_of self.old.engine)) ≡ true }
        ensures refused { IsErr result → is_taken (device_of self.old.engine) self.old.engine.parent.handed event.now
            (length bytes.now) (length samples.now) (unheard_room (device_of self.old.engine)) ≡ false }
        ensures fault { IfErr result (λ fault. fault ≡ fault_of (device_of self.old.engine) self.old.engine.parent.handed event.now
            (length bytes.now) (length samples.now)) }
        ensures count { IfOk result (λ count. count ≡ bytes_handed (device_of self.old.engine) event.now) }
        ensures wrong { OnErr result (self.new ≡ self.old) }
        ensures step { IfOk result (λ count. IsCallStep B.kept event.now bytes.now samples.now
            self.old.engine self.new.engine self.new.reply (take count (fixed_items self.new.unheard))) }
    {
        if !self.takes(event, bytes.len(), samples.len(), self.unheard_room()) {
            return Err(self.fault_of(event, bytes.len(), samples.len()));
        }
        let count = self
            .engine
            .step_with(event, bytes, samples, &mut self.unheard, &mut self.reply);
        Ok(count)
    }

    /// What the last call was answered, or why it was refused.
    pub fn result(&self) -> Result<Answer, Errno>
        ensures { result ≡ self.now.reply.result }
    {
        self.reply.result()
    }

    /// The bytes that the last call got, if it was a read.
    pub fn bytes(&self) -> &[u8]
        ensures { result.now ≡ self.now.reply.bytes }
    {
        self.reply.bytes()
    }

    // The room of what nobody hears.
    fn unheard_room(&self) -> usize
        ensures { result ≡ unheard_room (device_of self.now.engine) }
    {
        let room: &[u8] = &self.unheard;
        room.len()
    }

    // Whether the engine can take an event with this many bytes and samples, and with this room.
    fn takes(&self, event: &Event, bytes: usize, samples: usize, room: usize) -> bool
        ensures { result ≡ is_taken (device_of self.now.engine) self.now.engine.parent.handed event.now bytes samples room }
    {
        self.has_right(event, bytes, samples)
            && is_left(self.engine.handed(), event)
            && bytes_handed(self.engine.device(), event) <= room
    }

    // Why it can't, where it can't.
    fn fault_of(&self, event: &Event, bytes: usize, samples: usize) -> CallFault
        ensures { result ≡ fault_of (device_of self.now.engine) self.now.engine.parent.handed event.now bytes samples }
    {
        if !self.has_right(event, bytes, samples) {
            CallFault::Argument
        } else if !is_left(self.engine.handed(), event) {
            CallFault::Worn
        } else {
            CallFault::Room
        }
    }

    // Whether an event keeps the limits of the device, and came with what it brings.
    fn has_right(&self, event: &Event, bytes: usize, samples: usize) -> bool
        ensures { result ≡ has_right (device_of self.now.engine) event.now bytes samples }
    {
        let device = self.engine.device();
        is_allowed(device, event)
            && bytes == bytes_asked(event)
            && samples <= samples_asked(device.settings.layout, event)
            && samples % device.settings.layout.channels() == 0
    }

    /// How many frames the engine can still give to the device.
    pub fn frames_left(&self) -> u64
        ensures { result ≡ frames_left self.now.engine.parent.handed }
    {
        LIFE - self.engine.handed()
    }
}

// Whether the frames are left that an event gives to the device, once it has been given `handed`.
fn is_left(handed: u64, event: &Event) -> bool
    requires { handed ≤ LIFE }
    ensures { result ≡ is_left handed event.now }
{
    match event {
        Event::Intr { frames } => u64::from(*frames) <= LIFE - handed,
        _ => true,
    }
}
