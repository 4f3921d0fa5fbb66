//! The run of a script that a number makes: its tally is added up, and reported in one line.

ghost use Rattle.std.specs.Prelude.{◌+◌, [], IfErr, IfOk, OnErr, OnOk, take};
ghost use Rattle.pcm_outside.specs.Sink.{FailsToPut, Puts};
ghost use Rattle.pcm_wave.specs.declared.pool.Pool.{Pool};
ghost use Rattle.pcm_desk.specs.Usual.{usual_device};
ghost use Rattle.pcm_feeder.specs.Racks.{AreRacks, list_of};
ghost use Rattle.pcm_soak.specs.declared.limits.TheConstants.{SOAK_EVENTS};
ghost use Rattle.pcm_verdict.specs.Soaks.{soak_line};
ghost use Rattle.pcm_inputs.specs.Faults.{CutsLines};
ghost use Rattle.pcm_soak_command.specs.Running.{CanRun};
ghost use Rattle.pcm_soak_command.specs.Soaking.{CanSoakNext, HasSoaked, RanSoak, line_of};

use crate::tally_line::{TALLY_BYTES, write_tally};
use pcm_config::default_config;
use pcm_engine::EngineOf;
use pcm_feeder::{Feeder, RacksOf};
use pcm_inputs::Ending;
use pcm_oss::{Event, ReplyBuf};
use pcm_outside::{Sink, WriteFault};
use pcm_script::Script;
use pcm_sequence::Fixed;
use pcm_soak::{Tally, soak_script};
use pcm_wave::{DataFiles, Pool};
use std::alloc::{AllocError, Global};

/// The engine of such a run, with the tally of its events so far.
#[derive(Drop)]
pub struct SoakOf<B> {
    engine: EngineOf<B>,
    reply: ReplyBuf,
    block: Fixed<u8>,
    line: Fixed<u8>,
    tally: Tally,
}

impl<B: Feeder> SoakOf<B> {
    // Takes all memory of a run without a configuration, before the first event.
    fn new(alloc: Global, racks: RacksOf<B>) -> Result<SoakOf<B>, AllocError>
        requires kinds { AreRacks B.kind (list_of racks) }
        ensures soaked { IfOk result (λ soak. (pool : Pool) → HasSoaked B.kind B.kept soak pool []) }
    {
        let config = default_config(alloc);
        let device = config.device;
        // The greatest interrupt takes the device's whole ring.
        let room = device.ring_frames as usize * device.settings.frame_bytes();
        Ok(SoakOf {
            engine: EngineOf::new(alloc, device, config.tables, racks)?,
            reply: ReplyBuf::new(alloc)?,
            block: Fixed::new(vec![in alloc; 0; room]?),
            line: Fixed::new(vec![in alloc; 0; TALLY_BYTES]?),
            tally: Tally::none(),
        })
    }

    // Steps the engine through one event, and adds it to the tally.
    fn step_at(&mut self, events: &[Event], pool: &Pool, at: usize)
        requires { CanSoakNext B.kind B.kept self.old pool.now events.now at }
        ensures soaked { HasSoaked B.kind B.kept self.new pool.now (take (at + 1) events.now) }
    {
        let event = &events[at];
        let count = self
            .engine
            .step(event, pool, &mut self.block, &mut self.reply);
        self.tally.count(event, &self.reply);
        self.tally.hear(&self.block[..count]);
    }
}

/// Runs the script that a number makes, and then reports its tally. All memory is taken before the first event.
pub fn run_soak<B: Feeder, K: Sink>(
    alloc: Global,
    racks: RacksOf<B>,
    seed: u32,
    out: &mut K,
) -> Result<EngineOf<B>, Ending>
    requires kinds { AreRacks B.kind (list_of racks) }
    ensures ran { IfOk result (λ engine. RanSoak B.kind B.kept engine seed) }
    ensures ok { OnOk result (Puts (K.seen out.old) (K.seen out.new) (soak_line seed)) }
    ensures err { IfErr result (CutsLines (soak_line seed) (K.seen out.old) (K.seen out.new)) }
{
    let Ok(script) = soak_script(alloc, seed) else {
        return Err(Ending::NoMemory);
    };
    let Ok(mut soak) = SoakOf::new(alloc, racks) else {
        return Err(Ending::NoMemory);
    };
    let Script {
        events,
        inline_bytes,
        device_frames,
    } = script;
    let pool = Pool {
        files: DataFiles::new(Vec::new(alloc)),
        capture: None,
        inline_bytes,
    };
    match tell_soak(&mut soak, events.as_slice(), &pool, device_frames, out) {
        Ok(()) => Ok(soak.engine),
        Err(WriteFault) => Err(Ending::CannotWrite),
    }
}

// Runs all events, and puts the line of their tally. It takes no memory, so it fails at the put alone.
fn tell_soak<B: Feeder, K: Sink>(
    soak: &mut SoakOf<B>,
    events: &[Event],
    pool: &Pool,
    frames: u32,
    out: &mut K,
) -> Result<(), WriteFault>
    requires events { CanRun SOAK_EVENTS usual_device pool.now events.now }
    requires soaked { HasSoaked B.kind B.kept soak.old pool.now [] }
    ensures soaked { HasSoaked B.kind B.kept soak.new pool.now events.now }
    ensures ok { OnOk result (Puts (K.seen out.old) (K.seen out.new) (line_of frames pool.now events.now)) }
    ensures err { OnErr result (FailsToPut (K.seen out.old) (K.seen out.new) (line_of frames pool.now events.now)) }
{
    soak_through(soak, events, pool);
    let size = write_tally(
        events.len() as u64,
        u64::from(frames),
        &soak.tally,
        &mut soak.line,
    );
    out.put(&soak.line[..size])
}

// Runs all events on the device of a run without a configuration.
fn soak_through<B: Feeder>(soak: &mut SoakOf<B>, events: &[Event], pool: &Pool)
    requires events { CanRun SOAK_EVENTS usual_device pool.now events.now }
    requires soaked { HasSoaked B.kind B.kept soak.old pool.now [] }
    ensures { HasSoaked B.kind B.kept soak.new pool.now events.now }
{
    for at in 0..events.len() {
        soak.step_at(events, pool, at);
    }
}
