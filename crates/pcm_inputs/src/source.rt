//! A wave that is to be converted: it is read, and judged for the settings that are asked for.

ghost use Rattle.std.specs.Prelude.{◌≡◌, ◌*◌, IfErr, IfOk, nat_lt, string_bytes};
ghost use Rattle.pcm_format.specs.Frames.{frame_bytes};
ghost use Rattle.pcm_feeder.specs.Limits.{IsRate};
ghost use Rattle.pcm_wave.specs.declared.written.TheConstants.{BODY_BYTES};
ghost use Rattle.pcm_inputs.specs.Outside.{both, ◌over◌};
ghost use Rattle.pcm_inputs.specs.Parts.{HasRoom, SourceJudged, conversion_part, conversion_to};
ghost use Rattle.pcm_inputs.specs.Reads.{Ends, GivesValue};

use crate::ending::Ending;
use crate::fault::{Fault, FileKind};
use crate::reading::read_file;
use crate::refusals::refuse;
use pcm_convert::converted_frames;
use pcm_format::Settings;
use pcm_outside::{Files, Sink};
use pcm_wave::{BODY_BYTES, DATA_BYTES, DataFile};
use std::alloc::Global;

/// Reads the wave of a name, and judges it for the settings that it is to be converted to.
pub fn read_source<F: Files, K: Sink>(
    alloc: Global,
    name: &str,
    target: Settings,
    files: &mut F,
    out: &mut K,
) -> Result<DataFile, Ending>
    requires rate { IsRate target.rate }
    ensures ok { IfOk result (λ source. GivesValue (conversion_part name.now target)
        (conversion_to source target) over both F.seen K.seen files out) }
    ensures size { IfOk result (λ source. HasRoom (conversion_to source target)) }
    ensures err { IfErr result (Ends (conversion_part name.now target) over both F.seen K.seen files out) }
{
    let bytes = read_file(alloc, name, DATA_BYTES, files, out)?;
    if bytes.len() > DATA_BYTES {
        return Err(refuse(alloc, Fault::BadWave(name, FileKind::Long), out));
    }
    let Ok(own) = String::from_str(alloc, name) else {
        return Err(Ending::NoMemory);
    };
    match source_of(alloc, own, bytes, target) {
        Ok(source) => Ok(source),
        Err(kind) => Err(refuse(alloc, Fault::BadWave(name, kind), out)),
    }
}

// A wave that isn't too long at other settings, or what is wrong with it.
fn source_of(
    alloc: Global,
    name: String,
    bytes: Vec<u8>,
    target: Settings,
) -> Result<DataFile, FileKind>
    requires rate { IsRate target.rate }
    ensures judged { SourceJudged (string_bytes name) target bytes.items result }
    ensures size { IfOk result (λ source. HasRoom (conversion_to source target)) }
{
    let source = match DataFile::read(name, bytes) {
        Ok(source) => source,
        Err(fault) => return Err(FileKind::NoWave(fault)),
    };
    let settings = source.wave().settings();
    let frames = converted_frames(alloc, &settings, &target, source.body());
    if is_long(frames, &target) {
        return Err(FileKind::Long);
    }
    Ok(source)
}

// Whether the body of a wave has no room for that many frames.
fn is_long(frames: u128, settings: &Settings) -> bool
    ensures { result ≡ nat_lt BODY_BYTES (frames * frame_bytes settings.now) }
{
    frames > u128::from(BODY_BYTES) / settings.frame_bytes() as u128
}
