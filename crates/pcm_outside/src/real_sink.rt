//! Standard output.
ghost use Rattle.std.specs.Prelude.{◌≡◌};
ghost use Rattle.pcm_outside.specs.Edge.{untold_sink};

use crate::outside::{Sink, WriteFault};
use crate::transfer::write_whole;
use std::io;

/// Standard output, reached through the runtime. It doesn't show what was put.
#[derive(Drop)]
pub struct RealSink<'a, R: Print> {
    rt: &'a R,
    faults: u64,
}

impl<'a, R: Print> RealSink<'a, R> {
    /// Makes a sink with no failure counted.
    pub fn new(rt: &'a R) -> RealSink<'a, R>
        ensures { ⟦<RealSink<'a, R> as Sink>⟧.seen result ≡ untold_sink 0 }
    {
        RealSink { rt, faults: 0 }
    }
}

impl<'a, R: Print> Sink for RealSink<'a, R> {
    ghost seen = { λ s. untold_sink s.faults };

    fn put(&mut self, piece: &[u8]) -> Result<(), WriteFault> {
        let written = write_whole(&mut io::writer(self.rt), piece);
        if written.is_err() {
            self.faults = self.faults.saturating_add(1);
        }
        written
    }
}
