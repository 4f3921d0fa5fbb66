//! The equaliser.

ghost use Rattle.std.specs.Prelude.{◌≡◌, IfOk, IsOk};
ghost use Rattle.pcm_feeder.specs.Kept.{unfitted};
ghost use Rattle.feed_eq.specs.Feeders.{kept_by_eq};

use crate::equaliser::Equaliser;
use pcm_feeder::{AT_REST, Feeder, Kind, Moved, Progress, Pull, Spec, Tables};
use std::alloc::{AllocError, Global};

/// Puts frames through the sections of the tables, one after another.
#[derive(Drop)]
pub struct EqFeeder {
    fitted: Option<Equaliser>,
}

impl EqFeeder {
    /// A feeder that nothing is fitted to yet. Takes no memory.
    pub fn new(alloc: Global) -> Result<EqFeeder, AllocError>
        ensures ok { IsOk result }
        ensures unfitted { IfOk result (λ made. kept_by_eq made ≡ unfitted) }
    {
        Ok(EqFeeder { fitted: None })
    }
}

impl Feeder for EqFeeder {
    ghost use Rattle.pcm_feeder.specs.declared.kind.Kind.TheVariants as kinds;

    ghost kind = { λ _. kinds.Eq };

    ghost kept = { kept_by_eq };

    // All have the same mark.
    ghost mark = { λ _. 0 };

    fn kind(&self) -> Kind {
        Kind::Eq
    }

    fn fit(&mut self, spec: Spec) {
        if let Spec::Eq { channels, sections } = spec {
            self.fitted = Some(Equaliser::silent(channels, sections));
        }
    }

    fn keep(&self, samples: &mut [i32]) -> Progress {
        if let Some(fitted) = &self.fitted {
            fitted.keep(samples);
        }
        AT_REST
    }

    // There is no rate: so the progress is that at rest.
    fn resume(&mut self, spec: Spec, progress: Progress, samples: &[i32]) {
        if let Spec::Eq { channels, sections } = spec {
            self.fitted = Some(Equaliser::of(channels, sections, samples));
        }
    }

    fn feed(&mut self, tables: &Tables, pull: Pull, input: &[i32], output: &mut [i32]) -> Moved {
        let Some(fitted) = &mut self.fitted else {
            return Moved { eaten: 0, given: 0 };
        };
        let frames = pull.want.min(input.len() / fitted.channels);
        let front = frames * fitted.channels;
        let samples = &mut output[..front];
        samples.copy_from_slice(&input[..front]);
        fitted.pass(tables.sections(), samples);
        Moved {
            eaten: frames,
            given: frames,
        }
    }
}
