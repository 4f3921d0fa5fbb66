//! The two traits through which the core reaches the outside, and their faults.
ghost use Rattle.std.specs.Prelude.{IsTrue};
ghost use Rattle.pcm_outside.specs.Results.{DoesAppend, DoesCreate, DoesPut, DoesRead};

use std::alloc::Global;

/// Why a read gave no bytes.
#[derive(Clone, Copy, Debug, PartialEq, Eq)]
pub enum ReadFault {
    /// The file isn't there, or reading it failed.
    Failed,
    /// Memory ran out.
    Memory,
}

/// A create, an append or a put failed.
#[derive(Clone, Copy, Debug, PartialEq, Eq)]
pub struct WriteFault;

/// The files outside: any may be read, and one at a time is written.
pub trait Files {
    ghost use Rattle.pcm_outside.specs.Files.{FilesSeen};

    /// What is known of the files, and how often they failed.
    ghost seen: { Self → FilesSeen };

    /// Reads the first `most` bytes of a file, or all of them where there are fewer.
    fn read(&mut self, alloc: Global, name: &str, most: usize) -> Result<Vec<u8>, ReadFault>
        ensures { DoesRead (seen self.old) (seen self.new) name.now most result };

    /// Makes a file empty, as the one that is appended to.
    fn create(&mut self, name: &str) -> Result<(), WriteFault>
        ensures { DoesCreate (seen self.old) (seen self.new) name.now result };

    /// Appends a piece to the file that stands created.
    fn append(&mut self, piece: &[u8]) -> Result<(), WriteFault>
        requires { IsTrue (seen self.old).stands }
        ensures { DoesAppend (seen self.old) (seen self.new) piece.now result };
}

/// Where the lines of a run go.
pub trait Sink {
    ghost use Rattle.pcm_outside.specs.Sink.{SinkSeen};

    /// What was put, where it is known, and how often a put failed.
    ghost seen: { Self → SinkSeen };

    /// Puts a piece after all that was put before.
    fn put(&mut self, piece: &[u8]) -> Result<(), WriteFault>
        ensures { DoesPut (seen self.old) (seen self.new) piece.now result };
}
