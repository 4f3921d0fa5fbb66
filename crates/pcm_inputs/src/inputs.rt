//! What a script is run on.

ghost use Rattle.std.specs.Prelude.{◌≡◌, position};
ghost use Rattle.pcm_verdict.specs.Captures.{capture_place, has_name};

use pcm_config::{Config, Name};
use pcm_format::Bytes;
use pcm_script::Script;
use pcm_wave::{DataFile, DataFiles, Pool};

/// A configuration, its data files, and a script that was read for both.
#[derive(Drop)]
pub struct Inputs {
    pub config: Config,
    pub files: DataFiles,
    pub script: Script,
}

/// What the events of a script read from, with the file that is recorded from.
pub fn pool_from(capture: &Option<Name>, files: DataFiles, inline_bytes: Bytes) -> Pool
    ensures { result ≡ record {
      files = files;
      capture = capture_place capture.now files;
      inline_bytes = inline_bytes;
    } }
{
    let capture = capture_place(capture, files.as_slice());
    Pool {
        files,
        capture,
        inline_bytes,
    }
}

// The place of the file that is recorded from, if there is one.
fn capture_place(capture: &Option<Name>, files: &[DataFile]) -> Option<usize>
    ensures { result ≡ capture_place capture.now files.now }
{
    match capture {
        Some(name) => place_named(files, name.as_str()),
        None => None,
    }
}

// The place of the first file that has a name.
fn place_named(files: &[DataFile], name: &str) -> Option<usize>
    ensures { result ≡ position (has_name name.now) files.now }
{
    files.iter().position(|file| has_name(file, name))
}

// Whether a file has a name.
fn has_name(file: &DataFile, name: &str) -> bool
    ensures { result ≡ has_name name.now file.now }
{
    name == file.name()
}
