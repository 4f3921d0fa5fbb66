//! Files that only count: they take all bytes, keep none, and never fail.
ghost use Rattle.std.specs.Prelude.{◌≡◌, [], true, false, IfOk, IsOk, IsTrue};
ghost use Rattle.pcm_outside.specs.Results.{DoesAppend, DoesCreate, DoesRead};
ghost use Rattle.pcm_outside.specs.Tallies.{TakesWhole, counting_files};

use crate::byte_count::ByteCount;
use crate::outside::{Files, ReadFault, WriteFault};
use std::alloc::Global;

/// Files that count the bytes appended. Each name reads as a file of no bytes.
#[derive(Clone, Copy, Debug, PartialEq, Eq)]
pub struct TallyFiles {
    taken: ByteCount,
    stands: bool,
}

impl TallyFiles {
    /// No byte was appended so far, and no file stands created.
    pub fn new() -> TallyFiles
        ensures total { result.taken.total ≡ 0 }
        ensures stands { result.stands ≡ false }
    {
        TallyFiles {
            taken: ByteCount::none(),
            stands: false,
        }
    }

    /// How many bytes were appended. The greatest number of its type stands for it and all beyond.
    pub fn total(&self) -> u64
        ensures { result ≡ self.now.taken.total }
    {
        self.taken.total()
    }
}

impl Files for TallyFiles {
    ghost seen = { λ files. counting_files files.stands };

    fn read(&mut self, alloc: Global, name: &str, most: usize) -> Result<Vec<u8>, ReadFault>
        ensures does { DoesRead (counting_files self.old.stands) (counting_files self.new.stands) name.now most result }

        // It gives no bytes, and nothing is counted.
        ensures whole { IsOk result }
        ensures empty { IfOk result (λ bytes. bytes.items ≡ []) }
        ensures same { self.new ≡ self.old }
    {
        Ok(Vec::new(alloc))
    }

    fn create(&mut self, name: &str) -> Result<(), WriteFault>
        ensures does { DoesCreate (counting_files self.old.stands) (counting_files self.new.stands) name.now result }

        // From here on a file stands created, and the count goes on through any number of files.
        ensures whole { IsOk result }
        ensures after { self.new ≡ record self.old { stands = true } }
    {
        self.stands = true;
        Ok(())
    }

    fn append(&mut self, piece: &[u8]) -> Result<(), WriteFault>
        requires { IsTrue self.old.stands }
        ensures does { DoesAppend (counting_files self.old.stands) (counting_files self.new.stands) piece.now result }

        ensures taken { TakesWhole self.old.taken.total self.new.taken.total piece.now result }
    {
        self.taken.take(piece);
        Ok(())
    }
}
