//! A sink that only counts: it takes all bytes, keeps none, and never fails.
ghost use Rattle.std.specs.Prelude.{◌≡◌};
ghost use Rattle.pcm_outside.specs.Results.{DoesPut};
ghost use Rattle.pcm_outside.specs.Tallies.{TakesWhole, counting_sink};

use crate::byte_count::ByteCount;
use crate::outside::{Sink, WriteFault};

/// A sink that counts the bytes put.
#[derive(Clone, Copy, Debug, PartialEq, Eq)]
pub struct TallySink {
    taken: ByteCount,
}

impl TallySink {
    /// No byte was put so far.
    pub fn new() -> TallySink
        ensures { result.taken.total ≡ 0 }
    {
        TallySink {
            taken: ByteCount::none(),
        }
    }

    /// How many bytes were put. The greatest number of its type stands for it and all beyond.
    pub fn total(&self) -> u64
        ensures { result ≡ self.now.taken.total }
    {
        self.taken.total()
    }
}

impl Sink for TallySink {
    ghost seen = { λ sink. counting_sink };

    fn put(&mut self, piece: &[u8]) -> Result<(), WriteFault>
        ensures does { DoesPut counting_sink counting_sink piece.now result }

        ensures taken { TakesWhole self.old.taken.total self.new.taken.total piece.now result }
    {
        self.taken.take(piece);
        Ok(())
    }
}
