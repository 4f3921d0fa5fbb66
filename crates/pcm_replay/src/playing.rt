//! A script is played into a file and a sink, event by event. No event takes memory.

ghost use Rattle.std.specs.Prelude.{◌≡◌, IsTrue, OnErr, OnOk, length};
ghost use Rattle.pcm_desk.specs.declared.limits.TheConstants.{EVENTS};
ghost use Rattle.pcm_engine.specs.Engines.{device_of};
ghost use Rattle.pcm_replay.specs.Cuts.{CutsRun};
ghost use Rattle.pcm_inputs.specs.Outside.{both, ◌over◌};
ghost use Rattle.pcm_replay.specs.Playback.{playback};
ghost use Rattle.pcm_soak_command.specs.Running.{CanRun};
ghost use Rattle.pcm_replay.specs.Playing.{HasPlayed, output_played};
ghost use Rattle.pcm_replay.specs.Turns.{CutsEvents, WritesFirst};
ghost use Rattle.pcm_convert_command.specs.Written.{WritesAll};

use crate::replay::ReplayOf;
use crate::writing::append_some;
use pcm_feeder::Feeder;
use pcm_oss::Event;
use pcm_outside::{Files, Sink, WriteFault};
use pcm_wave::Pool;

/// Creates the file of a name with what stands before the frames, and then plays all events into it.
pub fn play_into<B: Feeder, F: Files, K: Sink>(
    replay: &mut ReplayOf<B>,
    events: &[Event],
    pool: &Pool,
    files: &mut F,
    out: &mut K,
    name: &str,
    head: &[u8],
) -> Result<(), WriteFault>
    requires events { CanRun EVENTS (device_of replay.old.engine) pool.now events.now }
    requires played { HasPlayed B.kind B.kept replay.old pool.now events.now 0 }
    ensures played { OnOk result (HasPlayed B.kind B.kept replay.new pool.now events.now (length events.now)) }
    ensures device { OnOk result (device_of replay.new.engine ≡ device_of replay.old.engine) }
    ensures ok { OnOk result (WritesAll
        (output_played name.now head.now (playback (device_of replay.old.engine) pool.now events.now))
        over both F.seen K.seen files out) }
    ensures err { OnErr result (CutsRun name.now head.now
        (playback (device_of replay.old.engine) pool.now events.now) over both F.seen K.seen files out) }
{
    let Ok(()) = files.create(name) else {
        return Err(WriteFault);
    };
    let Ok(()) = append_some(files, head) else {
        return Err(WriteFault);
    };
    play(replay, events, pool, files, out)
}

// Plays all events.
fn play<B: Feeder, F: Files, K: Sink>(
    replay: &mut ReplayOf<B>,
    events: &[Event],
    pool: &Pool,
    files: &mut F,
    out: &mut K,
) -> Result<(), WriteFault>
    requires created { IsTrue (F.seen files.old).stands }
    requires events { CanRun EVENTS (device_of replay.old.engine) pool.now events.now }
    requires played { HasPlayed B.kind B.kept replay.old pool.now events.now 0 }
    ensures played { OnOk result (HasPlayed B.kind B.kept replay.new pool.now events.now (length events.now)) }
    ensures device { OnOk result (device_of replay.new.engine ≡ device_of replay.old.engine) }
    ensures ok { OnOk result (WritesFirst
        (playback (device_of replay.old.engine) pool.now events.now) (length events.now)
        over both F.seen K.seen files out) }
    ensures err { OnErr result (CutsEvents
        (playback (device_of replay.old.engine) pool.now events.now) over both F.seen K.seen files out) }
{
    for at in 0..events.len() {
        let Ok(()) = replay.play_at(events, pool, at, files, out) else {
            return Err(WriteFault);
        };
    }
    Ok(())
}
