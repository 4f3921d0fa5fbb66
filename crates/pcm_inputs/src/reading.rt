//! Files that are read and then judged. Where one stops a call, a line says so.

ghost use Rattle.std.specs.Prelude.{◌+◌, ◌^◌, ◌<◌, ◌≤◌, IfErr, IfOk, List, OnOk, length, ℕ};
ghost use Rattle.pcm_outside.specs.Files.{ReadsFile};
ghost use Rattle.pcm_desk.specs.declared.limits.TheConstants.{DEVICE_BYTES, EVENTS};
ghost use Rattle.pcm_desk.specs.Device.{IsInLimits};
ghost use Rattle.pcm_config.specs.Configs.{IsHeld, device_seen};
ghost use Rattle.pcm_wave.specs.Pools.{IsCaptureIn};
ghost use Rattle.pcm_script.specs.Lines.{AllFit, bytes_taken};
ghost use Rattle.pcm_verdict.specs.Outputs.{inputs_pool};
ghost use Rattle.pcm_inputs.specs.Commands.{MayNameFiles, named};
ghost use Rattle.pcm_inputs.specs.Outside.{both, ◌over◌};
ghost use Rattle.pcm_inputs.specs.Parts.{IsPath, config_part, file_part, inputs_part, inputs_seen, script_part};
ghost use Rattle.pcm_inputs.specs.Reads.{Ends, GivesValue, OnlyHasRead};

use crate::data_files::read_data_files;
use crate::ending::Ending;
use crate::fault::Fault;
use crate::inputs::Inputs;
use crate::refusals::refuse;
use pcm_config::{CONFIG_BYTES, Config, ConfigFault, config_of, default_config};
use pcm_outside::{Files, ReadFault, Sink};
use pcm_script::{Script, ScriptFault, TEXT_BYTES, script_of};
use pcm_wave::DataFile;
use std::alloc::Global;

/// Reads the file of a name. One byte more than `most` shows that it is too long.
pub fn read_file<F: Files, K: Sink>(
    alloc: Global,
    name: &str,
    most: usize,
    files: &mut F,
    out: &mut K,
) -> Result<Vec<u8>, Ending>
    requires { most + 1 < 2 ^ 64 }
    ensures ok { IfOk result
        (λ bytes. ReadsFile (F.seen files.old) name.now (most + 1) bytes.items) }
    ensures only { OnOk result (OnlyHasRead over both F.seen K.seen files out) }
    ensures err { IfErr result (Ends (file_part name.now) over both F.seen K.seen files out) }
{
    match files.read(alloc, name, most + 1) {
        Ok(bytes) => Ok(bytes),
        Err(ReadFault::Failed) => Err(refuse(alloc, Fault::CannotRead(name), out)),
        Err(ReadFault::Memory) => Err(Ending::NoMemory),
    }
}

/// Reads the configuration of a name. Without a name it is the usual one.
pub fn read_config<F: Files, K: Sink>(
    alloc: Global,
    name: Option<&str>,
    files: &mut F,
    out: &mut K,
) -> Result<Config, Ending>
    ensures ok { IfOk result (λ config. GivesValue (config_part (named name.entry)) config
        over both F.seen K.seen files out) }
    ensures limits { IfOk result (λ config. IsInLimits (device_seen config)) }
    ensures container { IfOk result IsHeld }
    ensures paths { IfOk result (λ config. (path : List ℕ) → IsPath config path
        → MayNameFiles (named name.entry)) }
    ensures err { IfErr result (Ends (config_part (named name.entry)) over both F.seen K.seen files out) }
{
    let Some(name) = name else {
        return Ok(default_config(alloc));
    };
    let text = read_file(alloc, name, CONFIG_BYTES, files, out)?;
    match config_of(alloc, &text) {
        Ok(config) => Ok(config),
        Err(ConfigFault::Refused(refusal)) => { Err(refuse(alloc, Fault::BadConfig(refusal), out)) }
        Err(ConfigFault::Memory) => Err(Ending::NoMemory),
    }
}

/// Reads the script of a name, for a device and data files.
pub fn read_script<F: Files, K: Sink>(
    alloc: Global,
    name: &str,
    config: &Config,
    waves: &[DataFile],
    files: &mut F,
    out: &mut K,
) -> Result<Script, Ending>
    requires limits { IsInLimits (device_seen config.now) }
    ensures ok { IfOk result (λ script. GivesValue (script_part config.now waves.now name.now) script
        over both F.seen K.seen files out) }
    ensures fits { IfOk result (λ script. AllFit (device_seen config.now) waves.now script) }
    ensures count { IfOk result (λ script. length script.events ≤ EVENTS) }
    ensures frames { IfOk result
        (λ script. bytes_taken (device_seen config.now) script ≤ DEVICE_BYTES) }
    ensures err { IfErr result (Ends (script_part config.now waves.now name.now) over both F.seen K.seen files out) }
{
    let text = read_file(alloc, name, TEXT_BYTES, files, out)?;
    match script_of(alloc, &text, &config.device, waves) {
        Ok(script) => Ok(script),
        Err(ScriptFault::Refused(refusal)) => { Err(refuse(alloc, Fault::BadScript(refusal), out)) }
        Err(ScriptFault::Memory) => Err(Ending::NoMemory),
    }
}

/// Reads all that a script is run on: its configuration, the data files of that, and then the script.
pub fn read_inputs<F: Files, K: Sink>(
    alloc: Global,
    script: &str,
    config: Option<&str>,
    files: &mut F,
    out: &mut K,
) -> Result<Inputs, Ending>
    ensures ok { IfOk result (λ inputs. GivesValue
        (inputs_part script.now (named config.entry)) (inputs_seen inputs) over both F.seen K.seen files out) }
    ensures limits { IfOk result (λ inputs. IsInLimits (device_seen inputs.config)) }
    ensures fits { IfOk result
        (λ inputs. AllFit (device_seen inputs.config) inputs.files inputs.script) }
    ensures count { IfOk result (λ inputs. length inputs.script.events ≤ EVENTS) }
    ensures captures { IfOk result (λ inputs. IsCaptureIn inputs.config.device.settings.layout
        (inputs_pool (inputs_seen inputs))) }
    ensures container { IfOk result (λ inputs. IsHeld inputs.config) }
    ensures frames { IfOk result (λ inputs.
        bytes_taken (device_seen inputs.config) inputs.script ≤ DEVICE_BYTES) }
    ensures err { IfErr result (Ends
        (inputs_part script.now (named config.entry)) over both F.seen K.seen files out) }
{
    let config = read_config(alloc, config, files, out)?;
    let waves = read_data_files(alloc, &config, files, out)?;
    let script = read_script(alloc, script, &config, waves.as_slice(), files, out)?;
    Ok(Inputs {
        config,
        files: waves,
        script,
    })
}
