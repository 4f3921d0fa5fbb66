//! The data files of a configuration: each is judged before the next is read.

ghost use Rattle.std.specs.Prelude.{◌≡◌, All, IfErr, IfOk, OnOk, string_bytes};
ghost use Rattle.pcm_verdict.specs.Captures.{IsShaped};
ghost use Rattle.pcm_verdict.specs.Verdict.{has_shape, is_capture};
ghost use Rattle.pcm_inputs.specs.Parts.{AddsFile, FileJudged, data_part, files_part};
ghost use Rattle.pcm_inputs.specs.Outside.{both, ◌over◌};
ghost use Rattle.pcm_inputs.specs.Reads.{Ends, GivesValue};

use crate::ending::Ending;
use crate::fault::{Fault, FileKind};
use crate::loaded::Loaded;
use crate::reading::read_file;
use crate::refusals::refuse;
use pcm_config::{Config, FilePath, Name};
use pcm_format::Settings;
use pcm_outside::{Files, Sink};
use pcm_wave::{DataFile, DataFiles, Wave};
use std::alloc::Global;

/// Reads all data files of a configuration, in the order of their names.
pub fn read_data_files<F: Files, K: Sink>(
    alloc: Global,
    config: &Config,
    files: &mut F,
    out: &mut K,
) -> Result<DataFiles, Ending>
    ensures ok { IfOk result (λ read. GivesValue (files_part config.now) read over both F.seen K.seen files out) }
    ensures shaped { IfOk result (λ read. All (IsShaped config.now) read) }
    ensures err { IfErr result (Ends (files_part config.now) over both F.seen K.seen files out) }
{
    let paths = config.files.as_slice();
    let mut loaded = Loaded::new(alloc);
    for at in 0..paths.len() {
        read_next(&mut loaded, alloc, config, &paths[at], files, out)?;
    }
    Ok(loaded.into_files())
}

// Reads one file more.
fn read_next<F: Files, K: Sink>(
    loaded: &mut Loaded,
    alloc: Global,
    config: &Config,
    file: &FilePath,
    files: &mut F,
    out: &mut K,
) -> Result<(), Ending>
    ensures ok { OnOk result (AddsFile config.now file.now loaded.old loaded.new over both F.seen K.seen files out) }
    ensures err { IfErr result (Ends (data_part config.now loaded.old.files.items file.now)
        over both F.seen K.seen files out) }
{
    let path = file.path.as_str();
    let bytes = read_file(alloc, path, loaded.left(), files, out)?;
    let size = bytes.len();
    if size > loaded.left() {
        return Err(refuse(alloc, Fault::BadWave(path, FileKind::Long), out));
    }
    let Ok(name) = String::from_str(alloc, file.name.as_str()) else {
        return Err(Ending::NoMemory);
    };
    match file_of(config, name, bytes) {
        Ok(next) => loaded.keep(next, size),
        Err(kind) => Err(refuse(alloc, Fault::BadWave(path, kind), out)),
    }
}

// A data file, or what is wrong with it: the one that is recorded from has the shape of the device.
fn file_of(config: &Config, name: String, bytes: Vec<u8>) -> Result<DataFile, FileKind>
    ensures judged { FileJudged config.now (string_bytes name) bytes.items result }
    ensures bytes { IfOk result (λ file. file.bytes ≡ bytes.items) }
    ensures shaped { IfOk result (IsShaped config.now) }
{
    let is_capture = is_capture(&config.capture, &name);
    let data = match DataFile::read(name, bytes) {
        Ok(data) => data,
        Err(fault) => return Err(FileKind::NoWave(fault)),
    };
    if is_capture && !has_shape(&config.device.settings, &data.wave()) {
        return Err(FileKind::Shape);
    }
    Ok(data)
}

// Whether a file is the one that is recorded from.
fn is_capture(capture: &Option<Name>, name: &str) -> bool
    ensures { result ≡ is_capture capture.now name.now }
{
    match capture {
        Some(capture) => capture.as_str() == name,
        None => false,
    }
}

// Whether a wave has the rate and the layout of these settings.
fn has_shape(settings: &Settings, wave: &Wave) -> bool
    ensures { result ≡ has_shape settings.now wave.now }
{
    wave.rate == settings.rate && wave.layout.channels() == settings.layout.channels()
}
