//! The data files of a run, as they are read.

ghost use Rattle.std.specs.Prelude.{◌≡◌, ◌-◌, ◌≤◌, [], ◌∷◌, ◌++◌, IfErr, OnOk, length};
ghost use Rattle.pcm_wave.specs.declared.pool.TheConstants.{DATA_BYTES};
ghost use Rattle.pcm_verdict.specs.Verdict.{bytes_held};
ghost use Rattle.pcm_inputs.specs.declared.ending.Ending.TheVariants.{NoMemory};

use crate::ending::Ending;
use pcm_wave::{DATA_BYTES, DataFile, DataFiles};
use std::alloc::Global;

/// The data files that were read so far, and how many bytes the next may have.
#[derive(Drop)]
pub struct Loaded {
    files: Vec<DataFile>,
    left: usize,
    ghost left_is: { left ≡ DATA_BYTES - bytes_held files.items },
}

impl Loaded {
    /// No file was read yet.
    pub fn new(alloc: Global) -> Loaded
        ensures { result.files.items ≡ [] }
    {
        Loaded {
            files: Vec::new(alloc),
            left: DATA_BYTES,
        }
    }

    /// How many bytes the next file may have.
    pub fn left(&self) -> usize
        ensures value { result ≡ DATA_BYTES - bytes_held self.now.files.items }
        ensures most { result ≤ DATA_BYTES }
    {
        self.left
    }

    /// Keeps a file of `size` bytes after the others.
    pub fn keep(&mut self, file: DataFile, size: usize) -> Result<(), Ending>
        requires size { size ≡ length file.bytes }
        requires left { size ≤ DATA_BYTES - bytes_held self.old.files.items }
        ensures ok { OnOk result (self.new.files.items ≡ self.old.files.items ++ file ∷ []) }
        ensures err { IfErr result (λ ending. ending ≡ NoMemory) }
    {
        if self.files.push(file).is_err() {
            return Err(Ending::NoMemory);
        }
        self.left -= size;
        Ok(())
    }

    /// Gives the files, as the list that nothing grows any more.
    pub fn into_files(self) -> DataFiles
        ensures { result ≡ self.files.items }
    {
        DataFiles::new(self.files)
    }
}
