//! A sink that keeps what is put first.

ghost use Rattle.std.specs.Prelude.{◌≡◌};

use pcm_outside::{Sink, WriteFault};

// The bytes that are kept at most: the words of a line, and a path as long as the system has them.
const KEPT: usize = 4224;

/// Puts everything into another sink, and keeps what is put first, unless it is long.
#[derive(Drop)]
pub struct FirstPut<K> {
    sink: K,
    is_first: bool,
    kept: [u8; KEPT],
    length: usize,
}

impl<K: Sink> FirstPut<K> {
    /// Stands before a sink. Nothing was put yet.
    pub fn new(sink: K) -> Self
        ensures { ⟦<FirstPut<K> as Sink>⟧.seen result ≡ K.seen sink }
    {
        FirstPut {
            sink,
            is_first: true,
            kept: [0; KEPT],
            length: 0,
        }
    }

    /// What was put first, or nothing where it was long.
    pub fn first(&self) -> &[u8] {
        match self.kept.get(..self.length) {
            Some(first) => first,
            None => &[],
        }
    }

    fn keep(&mut self, piece: &[u8])
        ensures { self.new.sink ≡ self.old.sink }
    {
        self.is_first = false;
        if piece.len() <= KEPT {
            self.kept[..piece.len()].copy_from_slice(piece);
            self.length = piece.len();
        }
    }
}

impl<K: Sink> Sink for FirstPut<K> {
    ghost seen = { λ s. K.seen s.sink };

    fn put(&mut self, piece: &[u8]) -> Result<(), WriteFault> {
        if self.is_first {
            self.keep(piece);
        }
        self.sink.put(piece)
    }
}
