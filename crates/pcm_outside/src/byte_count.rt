//! A count of bytes, of which none is kept.
ghost use Rattle.std.specs.Prelude.{◌≡◌, length};
ghost use Rattle.pcm_outside.specs.Tallies.{taken_more};

/// How many bytes were taken.
#[derive(Clone, Copy, Debug, PartialEq, Eq)]
pub(crate) struct ByteCount {
    total: u64,
}

impl ByteCount {
    /// No byte was taken so far.
    pub(crate) fn none() -> ByteCount
        ensures { result.total ≡ 0 }
    {
        ByteCount { total: 0 }
    }

    /// How many bytes were taken. The greatest number of its type stands for it and all beyond.
    pub(crate) fn total(&self) -> u64
        ensures { result ≡ self.now.total }
    {
        self.total
    }

    /// Counts the bytes of a piece.
    pub(crate) fn take(&mut self, piece: &[u8])
        ensures { self.new.total ≡ taken_more self.old.total (length piece.now) }
    {
        self.total = self.total.saturating_add(piece.len() as u64);
    }
}
