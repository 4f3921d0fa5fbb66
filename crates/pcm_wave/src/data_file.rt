//! Data files: waves that stay where they were read.

ghost use Rattle.std.specs.Prelude.{◌≡◌, ◌<◌, ◌^◌, Err, IfErr, IfOk, Ok, length, string_bytes};
ghost use Rattle.pcm_wave.specs.DataFiles.{DataFileSeen, body_of};
ghost use Rattle.pcm_wave.specs.Waves.{wave_of};

use crate::{Wave, WaveFault, read_wave};
use pcm_sequence::Sequence;
use std::marker::Model;

/// A wave under a name, with all its bytes as they were read.
#[derive(Debug, Drop)]
pub struct DataFile {
    name: String,
    bytes: Vec<u8>,
    wave: Wave,
}

impl Model for DataFile {
    ghost use Rattle.std.specs.Prelude.{◌≡◌, Ok, string_bytes};
    ghost use Rattle.pcm_wave.specs.DataFiles.{DataFileSeen};
    ghost use Rattle.pcm_wave.specs.Waves.{wave_of};

    ghost Value = { DataFileSeen };

    ghost view = { λ f. record { name = string_bytes f.name; bytes = f.bytes.items; wave = f.wave } };

    ghost invariant = { λ f. wave_of f.bytes.items ≡ Ok f.wave };
}

impl DataFile {
    /// The wave that bytes are, under a name; or why they are none.
    pub fn read(name: String, bytes: Vec<u8>) -> Result<DataFile, WaveFault>
        ensures name { IfOk result (λ file. file.name ≡ string_bytes name) }
        ensures bytes { IfOk result (λ file. file.bytes ≡ bytes.items) }
        ensures ok { IfOk result (λ file. wave_of bytes.items ≡ Ok file.wave) }
        ensures err { IfErr result (λ fault. wave_of bytes.items ≡ Err fault) }
    {
        let wave = read_wave(&bytes)?;
        Ok(DataFile { name, bytes, wave })
    }

    /// The name.
    pub fn name(&self) -> &str
        ensures { result.now ≡ self.now.name }
    {
        self.name.as_str()
    }

    /// The wave.
    pub fn wave(&self) -> Wave
        ensures value { result ≡ self.now.wave }
        ensures read { wave_of self.now.bytes ≡ Ok result }
    {
        self.wave
    }

    /// Lends the bytes of the wave's body.
    pub fn body(&self) -> &[u8]
        ensures bytes { result.now ≡ body_of self.now }
        ensures length { length result.now < 2 ^ 32 }
    {
        &self.bytes[self.wave.at..self.wave.at + self.wave.len as usize]
    }
}

/// A list of data files.
pub type DataFiles = Sequence<DataFile>;
