//! The engine of a run, with the room for what one event gives.

ghost use Rattle.std.specs.Prelude.{◌≡◌, ◌+◌, ◌≤◌, IfOk, OnErr, OnOk, take};
ghost use Rattle.pcm_sequence.specs.Fixed.{fixed_items, fixed_len};
ghost use Rattle.pcm_wave.specs.declared.pool.Pool.{Pool};
ghost use Rattle.pcm_desk.specs.Device.{seen};
ghost use Rattle.pcm_engine.specs.Engines.{device_of, CanBeMade};
ghost use Rattle.pcm_replay.specs.Playback.{playback};
ghost use Rattle.pcm_replay.specs.Playing.{CanPlayNext, CanStepNext, HasPlayed, greatest_taken};
ghost use Rattle.pcm_inputs.specs.Outside.{both, ◌over◌};
ghost use Rattle.pcm_replay.specs.Turns.{CutsNext, IsNext, OnlyAdds, WritesNext};

use crate::writing::write_turn;
use pcm_desk::Device;
use pcm_engine::EngineOf;
use pcm_feeder::{Feeder, RacksOf, Tables};
use pcm_oss::{Event, ReplyBuf};
use pcm_outside::{Files, Sink, WriteFault};
use pcm_report::{LINE_BYTES, write_line};
use pcm_sequence::Fixed;
use pcm_wave::Pool;
use std::alloc::{AllocError, Global};

/// The engine of a run, and what the last event gave: its reply, the bytes that it handed over, and its line.
#[derive(Drop)]
pub struct ReplayOf<B> {
    pub engine: EngineOf<B>,
    reply: ReplyBuf,
    block: Fixed<u8>,
    line: Fixed<u8>,
}

// How much the last event filled of the room for its bytes and of that for its line.
#[derive(Clone, Copy, Debug)]
struct Filled {
    bytes: usize,
    line: usize,
}

impl<B: Feeder> ReplayOf<B> {
    /// Takes all memory of a run, before the first event: the engine's, and the room for the greatest interrupt and for one line.
    pub fn new(
        alloc: Global,
        device: &Device,
        tables: Tables,
        racks: RacksOf<B>,
        events: &[Event],
    ) -> Result<ReplayOf<B>, AllocError>
        requires { CanBeMade B.kind tables device.now racks }
        ensures played { IfOk result (λ replay. (pool : Pool) → HasPlayed B.kind B.kept replay pool events.now 0) }
        ensures device { IfOk result (λ replay. device_of replay.engine ≡ seen tables device.now) }
    {
        let room = greatest_taken(events) as usize * device.settings.frame_bytes();
        Ok(ReplayOf {
            engine: EngineOf::new(alloc, *device, tables, racks)?,
            reply: ReplyBuf::new(alloc)?,
            block: Fixed::new(vec![in alloc; 0; room]?),
            line: Fixed::new(vec![in alloc; 0; LINE_BYTES]?),
        })
    }

    /// Plays one event: the engine takes a step, and what that gave is written, its bytes into the file and then its line.
    pub fn play_at<F: Files, K: Sink>(
        &mut self,
        events: &[Event],
        pool: &Pool,
        at: usize,
        files: &mut F,
        out: &mut K,
    ) -> Result<(), WriteFault>
        requires { CanPlayNext B.kind B.kept (F.seen files.old) self.old pool.now events.now at }
        ensures played { HasPlayed B.kind B.kept self.new pool.now events.now (at + 1) }
        ensures device { device_of self.new.engine ≡ device_of self.old.engine }
        ensures only { OnlyAdds over both F.seen K.seen files out }
        ensures ok { OnOk result (WritesNext (playback (device_of self.old.engine) pool.now events.now) at
            over both F.seen K.seen files out) }
        ensures err { OnErr result (CutsNext (playback (device_of self.old.engine) pool.now events.now) at
            over both F.seen K.seen files out) }
    {
        let Filled { bytes, line } = self.step_at(events, pool, at);
        write_turn(files, out, &self.block[..bytes], &self.line[..line])
    }

    // Steps the engine through one event. What it gives stands at the front of the rooms.
    fn step_at(&mut self, events: &[Event], pool: &Pool, at: usize) -> Filled
        requires { CanStepNext B.kind B.kept self.old pool.now events.now at }
        ensures played { HasPlayed B.kind B.kept self.new pool.now events.now (at + 1) }
        ensures device { device_of self.new.engine ≡ device_of self.old.engine }
        ensures next { IsNext (playback (device_of self.old.engine) pool.now events.now) at
            (take result.bytes (fixed_items self.new.block)) (take result.line (fixed_items self.new.line)) }
        ensures bytes { result.bytes ≤ fixed_len self.new.block }
        ensures line { result.line ≤ fixed_len self.new.line }
    {
        let bytes = self
            .engine
            .step(&events[at], pool, &mut self.block, &mut self.reply);
        let line = write_line((at + 1) as u32, &self.reply, &mut self.line);
        Filled { bytes, line }
    }
}

// The frames of the greatest interrupt among these events.
fn greatest_taken(events: &[Event]) -> u32
    ensures { result ≡ greatest_taken events.now }
{
    let mut most = 0;
    for event in events {
        if let Event::Intr { frames } = event {
            most = most.max(*frames);
        }
    }
    most
}
