//! What a configuration settles for a run.

ghost use Rattle.std.specs.Prelude.{◌≡◌, List, string_bytes, IfOk};
ghost use Rattle.pcm_config.specs.Configs.{usual_config};

use pcm_desk::Device;
use pcm_feeder::Tables;
use pcm_sequence::Sequence;
use std::alloc::{AllocError, Global};
use std::marker::Model;

/// The form of the file that is played to.
#[derive(Clone, Copy, Debug, PartialEq, Eq)]
pub enum Container {
    /// Frames alone.
    Raw,
    /// Frames after the header of a wave.
    Wav,
}

/// A name of a file: one that the configuration gives it, or its path.
#[derive(Debug, Drop)]
pub struct Name {
    text: String,
}

impl Model for Name {
    ghost use Rattle.std.specs.Prelude.{List, ℕ, string_bytes};

    ghost Value = { List ℕ };

    ghost view = { λ n. string_bytes n.text };
}

impl Name {
    /// Copies a name.
    pub fn new(alloc: Global, text: &str) -> Result<Self, AllocError>
        ensures { IfOk result (λ name. name ≡ text.now) }
    {
        Ok(Name {
            text: String::from_str(alloc, text)?,
        })
    }

    /// Lends the name.
    pub fn as_str(&self) -> &str
        ensures { result.now ≡ self.now }
    {
        self.text.as_str()
    }
}

/// A file: the name that the configuration gives it, and where it lies.
#[derive(Debug, Drop)]
pub struct FilePath {
    pub name: Name,
    pub path: Name,
}

/// A list of files.
pub type FilePaths = Sequence<FilePath>;

/// A configuration: the device of a run, the form of the file that is played to, the files by their names,
/// with the one that is recorded from, and the filters of the converters with the sections of the equaliser.
#[derive(Debug, Drop)]
pub struct Config {
    pub device: Device,
    pub container: Container,
    pub capture: Option<Name>,
    pub files: FilePaths,
    pub tables: Tables,
}

/// The settings of a run without a configuration. They take no memory.
pub fn default_config(alloc: Global) -> Config
    ensures { result ≡ usual_config }
{
    Config {
        device: Device::usual(),
        container: Container::Raw,
        capture: None,
        files: FilePaths::new(Vec::new(alloc)),
        tables: Tables::new(Vec::new(alloc), Vec::new(alloc)),
    }
}
