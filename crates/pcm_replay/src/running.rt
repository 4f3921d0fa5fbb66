//! The run of a script: all memory is taken, and then it is played.

ghost use Rattle.std.specs.Prelude.{◌≡◌, ◌*◌, ◌≤◌, IfErr, IfOk, OnOk, true};
ghost use Rattle.pcm_desk.specs.declared.limits.TheConstants.{DEVICE_BYTES};
ghost use Rattle.pcm_desk.specs.Device.{device_frame_bytes, seen, unfiltered};
ghost use Rattle.pcm_feeder.specs.Filters.{Filters};
ghost use Rattle.pcm_feeder.specs.Limits.{IsRate};
ghost use Rattle.pcm_config.specs.Configs.{can_hold};
ghost use Rattle.pcm_verdict.specs.Outputs.{file_header};
ghost use Rattle.pcm_verdict.specs.Verdict.{Runs};
ghost use Rattle.pcm_inputs.specs.declared.ending.Ending.TheVariants.{NoMemory};
ghost use Rattle.pcm_replay.specs.Asked.{CanRunScript};
ghost use Rattle.pcm_replay.specs.Endings.{Cuts, Does, RanInputs};
ghost use Rattle.pcm_inputs.specs.Outside.{both, ◌over◌};
ghost use Rattle.pcm_inputs.specs.Parts.{inputs_seen};

use crate::playing::play_into;
use crate::replay::ReplayOf;
use pcm_config::{Config, Container};
use pcm_desk::Device;
use pcm_engine::EngineOf;
use pcm_feeder::{Feeder, RacksOf};
use pcm_inputs::{Ending, Inputs, pool_from};
use pcm_outside::{Files, Sink};
use pcm_script::Script;
use pcm_wave::header;
use std::alloc::Global;

/// Runs a script into the file of a name. All memory is taken before the file is created.
pub fn run_script<B: Feeder, F: Files, K: Sink>(
    alloc: Global,
    racks: RacksOf<B>,
    inputs: Inputs,
    files: &mut F,
    out: &mut K,
    name: &str,
) -> Result<EngineOf<B>, Ending>
    requires { CanRunScript B.kind racks inputs }
    ensures ran { IfOk result (λ engine. RanInputs B.kind B.kept engine (inputs_seen inputs)) }
    ensures ok { OnOk result (Does (Runs name.now (inputs_seen inputs)) over both F.seen K.seen files out) }
    ensures err { IfErr result (Cuts (Runs name.now (inputs_seen inputs)) over both F.seen K.seen files out) }
{
    let Inputs {
        config,
        files: data,
        script,
    } = inputs;
    let Config {
        device,
        tables,
        container,
        capture,
        ..
    } = config;
    let Script {
        events,
        inline_bytes,
        device_frames,
    } = script;
    let pool = pool_from(&capture, data, inline_bytes);
    let events = events.as_slice();
    let head = file_head(alloc, container, &device, device_frames)?;
    let Ok(mut replay) = ReplayOf::new(alloc, &device, tables, racks, events) else {
        return Err(Ending::NoMemory);
    };
    let Ok(()) = play_into(&mut replay, events, &pool, files, out, name, &head) else {
        return Err(Ending::CannotWrite);
    };
    Ok(replay.engine)
}

// What stands before the frames of a device file.
fn file_head(
    alloc: Global,
    container: Container,
    device: &Device,
    frames: u32,
) -> Result<Vec<u8>, Ending>
    requires rate { IsRate device.now.settings.rate }
    requires container { can_hold container device.now.settings ≡ true }
    requires frames { frames * device_frame_bytes (unfiltered device.now) ≤ DEVICE_BYTES }
    ensures ok { IfOk result (λ head. (filters : Filters)
        → head.items ≡ file_header container (seen filters device.now) frames) }
    ensures err { IfErr result (λ ending. ending ≡ NoMemory) }
{
    let mut head = Vec::new(alloc);
    if container == Container::Raw {
        return Ok(head);
    }
    let bytes = header(&device.settings, frames);
    match head.extend_from_slice(&bytes) {
        Ok(()) => Ok(head),
        Err(_) => Err(Ending::NoMemory),
    }
}
