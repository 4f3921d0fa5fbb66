//! The engine and its events.

ghost use Rattle.std.specs.Prelude.{◌≡◌, [], ◌*◌, ◌≤◌, length, take, IfOk};
ghost use Rattle.pcm_sequence.specs.Fixed.{fixed_len};
ghost use Rattle.pcm_desk.specs.Events.{Fits, bytes_handed};
ghost use Rattle.pcm_desk.specs.Device.{seen};
ghost use Rattle.pcm_vchan.specs.Parents.{HasRacks};
ghost use Rattle.pcm_desk.proofs.Props.{hold_props};
ghost use Rattle.pcm_engine.specs.Applied.{Applied};
ghost use Rattle.pcm_engine.specs.Invariants.{PartsInOrder};
ghost use Rattle.pcm_engine.specs.Steps.{PutsFront};
ghost use Rattle.pcm_oss.specs.Replies.{bytes_due};
ghost use Rattle.pcm_oss.specs.declared.reply.TheConstants.{REPLY_BYTES};
ghost use Rattle.pcm_format.specs.Layouts.{channels_of};

use crate::brought::{bytes_brought, load_brought, pad, samples_asked};
use crate::calls::call;
use crate::clients::answer_read;
use crate::descriptors::Descriptors;
use crate::interrupts::interrupt;
use crate::tables::copied;
use pcm_desk::Device;
use pcm_feeder::{Feeder, RacksOf, Tables};
use pcm_oss::{Answer, Errno, Event, REPLY_BYTES, ReplyBuf};
use pcm_sequence::Fixed;
use pcm_vchan::ParentOf;
use pcm_wave::Pool;
use std::alloc::{AllocError, Global};

/// The descriptors of clients, and the parent whose channels they hold.
#[derive(Drop)]
pub struct EngineOf<B> {
    pub(crate) parent: ParentOf<B>,
    pub(crate) tables: Tables,
    pub(crate) descriptors: Descriptors,
    pub(crate) captured: Fixed<i32>,
    pub(crate) answered: Fixed<u8>,
    ghost order: { PartsInOrder parent descriptors } by { Prim.hlevel hold_props },
    ghost captured_size: { fixed_len captured ≡ parent.device.ring_frames * channels_of parent.device.settings.layout },
    ghost answered_size: { fixed_len answered ≡ REPLY_BYTES },
}

impl<B: Feeder> EngineOf<B> {
    ghost use Rattle.pcm_oss.specs.declared.event.Event.{Event};
    ghost use Rattle.pcm_wave.specs.declared.pool.Pool.{Pool};
    ghost use Rattle.pcm_wave.specs.Pools.{IsCaptureIn};
    ghost use Rattle.pcm_desk.specs.Device.{device_settings};
    ghost use Rattle.pcm_engine.specs.Brought.{padded};
    ghost use Rattle.pcm_feeder.specs.Racks.{AreRacks, list_of};
    ghost use Rattle.pcm_engine.specs.Clones.{IsCloneOf};
    ghost use Rattle.pcm_engine.specs.Engines.{AreReady, CanBeMade, CanStep, CanStepWith, HasStepped, Stands, StepsAs, StepsAsCalled, device_of, samples_at_hand, samples_most};

    /// The engine of a device with its filters, before its first event. Its channels pick their stages from the racks, one rack a slot; after
    /// a refusal the racks are dropped. All memory of the engine is taken here.
    pub fn new(
        alloc: Global,
        device: Device,
        tables: Tables,
        racks: RacksOf<B>,
    ) -> Result<EngineOf<B>, AllocError>
        requires { CanBeMade B.kind tables device racks }
        ensures device { IfOk result (λ engine. device_of engine ≡ seen tables device) }
        ensures handed { IfOk result (λ engine. engine.parent.handed ≡ 0) }
        ensures ready { IfOk result (AreReady B.kind B.kept) }
        ensures stands { IfOk result (λ engine. (pool : Pool) → Stands B.kept engine pool []) }
        // Each slot has the boxes of its own rack, and so has the bus.
        ensures racks { IfOk result (λ engine. HasRacks B.mark (list_of racks) engine.parent) }
    {
        let parent = ParentOf::new(alloc, device, &tables, racks)?;
        let descriptors = Descriptors::all_shut(alloc)?;
        let (captured, answered) = room_for(alloc, &parent.device)?;
        Ok(EngineOf {
            parent,
            tables,
            descriptors,
            captured,
            answered,
        })
    }

    /// An engine that goes on where this one is, with the boxes of other racks, one rack a slot; after a refusal the racks are dropped. All memory of the clone
    /// is taken here, and nothing is shared.
    pub fn try_clone(&self, alloc: Global, racks: RacksOf<B>) -> Result<EngineOf<B>, AllocError>
        requires ready { AreReady B.kind B.kept self.now }
        requires kinds { AreRacks B.kind (list_of racks) }
        ensures clone { IfOk result (IsCloneOf B.kind B.kept self.now) }
        ensures racks { IfOk result (λ clone. HasRacks B.mark (list_of racks) clone.parent) }
    {
        let tables = copied(alloc, &self.tables)?;
        let parent = self.parent.try_clone(alloc, &tables, racks)?;
        let descriptors = self.descriptors.try_clone(alloc)?;
        let (captured, answered) = room_for(alloc, &parent.device)?;
        Ok(EngineOf {
            parent,
            tables,
            descriptors,
            captured,
            answered,
        })
    }

    /// Steps through one event, and keeps its reply. Returns how many bytes the event gave to the device: they stand at
    /// the front of `out`, and the rest of `out` stays.
    pub fn step(
        &mut self,
        event: &Event,
        pool: &Pool,
        out: &mut [u8],
        reply: &mut ReplyBuf,
    ) -> usize
        requires fits { Fits (device_of self.old) pool.now event.now }
        requires captures { IsCaptureIn (device_settings (device_of self.old)).layout pool.now }
        requires can { CanStep B.kind B.kept self.old event.now out.old }

        ensures stepped { HasStepped B.kind B.kept event.now self.old self.new
            reply.new result out.old out.new }
        // Whatever it stood for with this pool, it stands for that with the event appended, and its bytes and its reply are those of the story.
        ensures told { StepsAs B.kept pool.now event.now self.old self.new
            reply.new (take result out.new) }
    {
        let layout = self.parent.device.settings.layout;
        load_brought(layout, event, pool, self.parent.handed, &mut self.captured);
        self.apply(event, bytes_brought(event, pool), out, reply)
    }

    /// Steps through one event whose bytes the caller has, and what is captured: samples at 32 bits, channel by channel, frame by frame, and silence
    /// after them. Besides, it is `step`: of each event of a script that is the same, with its pool.
    pub fn step_with(
        &mut self,
        event: &Event,
        bytes: &[u8],
        samples: &[i32],
        out: &mut [u8],
        reply: &mut ReplyBuf,
    ) -> usize
        requires samples { length samples.now ≤ samples_most self.old event.now }
        requires can { CanStepWith B.kind B.kept self.old event.now bytes.now out.old }

        ensures stepped { HasStepped B.kind B.kept event.now self.old self.new
            reply.new result out.old out.new }
        ensures called { StepsAsCalled B.kept event.now bytes.now (padded (samples_most self.old event.now) samples.now)
            self.old self.new reply.new (take result out.new) }
    {
        let layout = self.parent.device.settings.layout;
        let count = samples_asked(layout, event);
        pad(samples, count, &mut self.captured);
        self.apply(event, bytes, out, reply)
    }

    /// The device.
    pub fn device(&self) -> &Device
        ensures { result.now ≡ self.now.parent.device }
    {
        &self.parent.device
    }

    // Applies one event with the bytes that it brings, whose samples are at hand. Returns how many device bytes stand at the front of `out`.
    fn apply(&mut self, event: &Event, bytes: &[u8], out: &mut [u8], reply: &mut ReplyBuf) -> usize
        requires { CanStepWith B.kind B.kept self.old event.now bytes.now out.old }
        ensures tables { self.new.tables ≡ self.old.tables }
        ensures applied { Applied B.kind B.kept self.old.tables event.now bytes.now (samples_at_hand self.old event.now)
            self.old.parent self.old.descriptors self.new.parent self.new.descriptors reply.new }
        ensures out { PutsFront (bytes_handed (device_of self.old) event.now) self.old.parent.ring.bytes out.old out.new result }
    {
        let here = self.parent.here();
        let parent = &mut self.parent;
        match *event {
            Event::Read { fd, len } => {
                answer_read(
                    parent,
                    &self.descriptors,
                    fd,
                    len,
                    &mut self.answered,
                    reply,
                );
                0
            }
            Event::Intr { frames } => {
                reply.keep(Ok(Answer::Number(frames)), &[]);
                interrupt(parent, &self.tables, frames, &self.captured, out)
            }
            _ => tell(
                reply,
                call(
                    parent,
                    &self.tables,
                    &mut self.descriptors,
                    event,
                    bytes,
                    here,
                ),
            ),
        }
    }
}

/// Memory for what a device captures at an interrupt, and for the bytes of a reply.
pub(crate) fn room_for(
    alloc: Global,
    device: &Device,
) -> Result<(Fixed<i32>, Fixed<u8>), AllocError>
    ensures captured { IfOk result (λ room. fixed_len room.0 ≡ device.now.ring_frames * channels_of device.now.settings.layout) }
    ensures answered { IfOk result (λ room. fixed_len room.1 ≡ REPLY_BYTES) }
{
    let samples = device.ring_frames as usize * device.settings.layout.channels();
    let captured = vec![in alloc; 0i32; samples]?;
    let answered = vec![in alloc; 0u8; REPLY_BYTES]?;
    Ok((Fixed::new(captured), Fixed::new(answered)))
}

// Keeps an answer with which no bytes come. No bytes go to the device with such an answer.
fn tell(reply: &mut ReplyBuf, answer: Result<Answer, Errno>) -> usize
    requires { bytes_due answer ≡ 0 }
    ensures kept { reply.new ≡ record { result = answer; bytes = [] } }
    ensures none { result ≡ 0 }
{
    reply.keep(answer, &[]);
    0
}

/// The engine of a run, whose racks hold boxes.
pub type Engine = EngineOf<Box<dyn Feeder>>;
