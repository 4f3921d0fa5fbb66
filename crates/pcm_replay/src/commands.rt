//! What the words ask for is done: what it works on is read and judged, and then it is written.

ghost use Rattle.std.specs.Prelude.{IfErr, IfOk};
ghost use Rattle.pcm_feeder.specs.Racks.{AreRacks, list_of};
ghost use Rattle.pcm_verdict.specs.Commands.{CheckScript, ConvertWave, RunScript, SoakRun};
ghost use Rattle.pcm_inputs.specs.Commands.{command_seen, named};
ghost use Rattle.pcm_replay.specs.Asked.{CanConvertTo, CanDo};
ghost use Rattle.pcm_replay.specs.Endings.{DoesCommand, EndsCommand};
ghost use Rattle.pcm_inputs.specs.Outside.{both, ◌over◌};

use crate::check::tell_script;
use crate::running::run_script;
use pcm_convert_command::convert_wave;
use pcm_engine::EngineOf;
use pcm_feeder::{Feeder, RacksOf};
use pcm_format::Settings;
use pcm_inputs::{Command, Ending, read_inputs, read_source};
use pcm_outside::{Files, Sink};
use pcm_soak_command::run_soak;
use std::alloc::Global;

/// Does what a command asks for. An engine is left of a script that was run.
pub fn do_command<B: Feeder, F: Files, K: Sink>(
    alloc: Global,
    command: Command<'_>,
    files: &mut F,
    out: &mut K,
    racks: RacksOf<B>,
) -> Result<Option<EngineOf<B>>, Ending>
    requires { CanDo B.kind racks command }
    ensures ok { IfOk result (DoesCommand B.kind B.kept (command_seen command.entry) over both F.seen K.seen files out) }
    ensures err { IfErr result (EndsCommand (command_seen command.entry) over both F.seen K.seen files out) }
{
    match command {
        Command::Run {
            script,
            out: name,
            config,
        } => run(alloc, script, config, files, out, racks, name),
        Command::Check { script, config } => check(alloc, script, config, files, out),
        Command::Convert {
            input,
            out: name,
            target,
        } => convert(alloc, input, target, files, out, racks, name),
        Command::Soak { seed } => soak_run(alloc, seed, files, out, racks),
    }
}

// Runs a script into the file of a name.
fn run<B: Feeder, F: Files, K: Sink>(
    alloc: Global,
    script: &str,
    config: Option<&str>,
    files: &mut F,
    out: &mut K,
    racks: RacksOf<B>,
    name: &str,
) -> Result<Option<EngineOf<B>>, Ending>
    requires kinds { AreRacks B.kind (list_of racks) }
    ensures ok { IfOk result (DoesCommand B.kind B.kept
        (RunScript script.now name.now (named config.entry)) over both F.seen K.seen files out) }
    ensures err { IfErr result (EndsCommand
        (RunScript script.now name.now (named config.entry)) over both F.seen K.seen files out) }
{
    let inputs = read_inputs(alloc, script, config, files, out)?;
    let engine = run_script(alloc, racks, inputs, files, out, name)?;
    Ok(Some(engine))
}

// Judges a script, and all that it is read with.
fn check<B: Feeder, F: Files, K: Sink>(
    alloc: Global,
    script: &str,
    config: Option<&str>,
    files: &mut F,
    out: &mut K,
) -> Result<Option<EngineOf<B>>, Ending>
    ensures ok { IfOk result (DoesCommand B.kind B.kept
        (CheckScript script.now (named config.entry)) over both F.seen K.seen files out) }
    ensures err { IfErr result (EndsCommand
        (CheckScript script.now (named config.entry)) over both F.seen K.seen files out) }
{
    let inputs = read_inputs(alloc, script, config, files, out)?;
    tell_script(alloc, &inputs, out)?;
    Ok(None)
}

// Converts a wave into the file of a name.
fn convert<B: Feeder, F: Files, K: Sink>(
    alloc: Global,
    input: &str,
    target: Settings,
    files: &mut F,
    out: &mut K,
    racks: RacksOf<B>,
    name: &str,
) -> Result<Option<EngineOf<B>>, Ending>
    requires { CanConvertTo B.kind racks target }
    ensures ok { IfOk result (DoesCommand B.kind B.kept
        (ConvertWave input.now name.now target) over both F.seen K.seen files out) }
    ensures err { IfErr result (EndsCommand (ConvertWave input.now name.now target) over both F.seen K.seen files out) }
{
    let source = read_source(alloc, input, target, files, out)?;
    convert_wave(alloc, racks, &source, target, files, out, name)?;
    Ok(None)
}

// Runs the script that a number makes. No file is read or written.
fn soak_run<B: Feeder, F: Files, K: Sink>(
    alloc: Global,
    seed: u32,
    files: &mut F,
    out: &mut K,
    racks: RacksOf<B>,
) -> Result<Option<EngineOf<B>>, Ending>
    requires kinds { AreRacks B.kind (list_of racks) }
    ensures ok { IfOk result (DoesCommand B.kind B.kept (SoakRun seed) over both F.seen K.seen files out) }
    ensures err { IfErr result (EndsCommand (SoakRun seed) over both F.seen K.seen files out) }
{
    let engine = run_soak(alloc, racks, seed, out)?;
    Ok(Some(engine))
}
