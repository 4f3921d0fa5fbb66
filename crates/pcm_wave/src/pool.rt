//! The pool: where the bytes of events are found.

ghost use Rattle.std.specs.Prelude.{◌≡◌, length};
ghost use Rattle.pcm_wave.specs.Pools.{HasBytes, HasSource, bytes_at, source_bytes};

use crate::DataFiles;
use pcm_format::Bytes;

/// How many bytes all data files of a run have together at most; one that is converted has no more.
pub const DATA_BYTES: usize = 268435456;

/// Where the bytes of a write stand.
#[derive(Clone, Copy, Debug, PartialEq, Eq)]
pub enum Source {
    /// In the lines of the script.
    Inline,
    /// In the body of the data file at this place of the pool.
    File(usize),
}

/// What a run reads from: its data files in the order of their names, one of which may be recorded from, and the bytes of its
/// script's lines.
#[derive(Debug, Drop)]
pub struct Pool {
    pub files: DataFiles,
    /// The place of the file that is recorded from, if there is one.
    pub capture: Option<usize>,
    pub inline_bytes: Bytes,
}

impl Pool {
    /// `len` bytes of a source, from byte `at` on.
    pub fn bytes_at(&self, source: Source, at: u32, len: u32) -> &[u8]
        requires { HasBytes self.now source at len }
        ensures bytes { result.now ≡ bytes_at self.now source at len }
        ensures length { length result.now ≡ len }
    {
        let at = at as usize;
        &self.bytes_of(source)[at..at + len as usize]
    }

    // All bytes of a source.
    fn bytes_of(&self, source: Source) -> &[u8]
        requires { HasSource self.now source }
        ensures { result.now ≡ source_bytes self.now source }
    {
        match source {
            Source::Inline => self.inline_bytes.as_slice(),
            Source::File(place) => self.files.as_slice()[place].body(),
        }
    }
}
