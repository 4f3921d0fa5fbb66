//! The stage that changes the rate.

ghost use Rattle.std.specs.Prelude.{◌≡◌, false, Some, IfOk, IsOk};
ghost use Rattle.pcm_feeder.specs.Kept.{unfitted};
ghost use Rattle.pcm_feeder.specs.Limits.{IsSpec};
ghost use Rattle.pcm_feeder.specs.Pace.{rate_by};
ghost use Rattle.pcm_feeder.specs.Stages.{rate_of};
ghost use Rattle.feed_rate.specs.Methods.{lookahead_by};
ghost use Rattle.feed_rate.specs.declared.fitted.Fitted.{Fitted};

use crate::Interpolator;
use crate::fitted::Fitted;
use pcm_feeder::{AT_REST, Feeder, Kind, Moved, Progress, Pull, Spec, Tables};
use pcm_rate::{Rate, UNCHANGED};
use std::alloc::{AllocError, Global};

/// Changes the rate of a stream by an interpolator.
#[derive(Drop)]
pub struct RateFeeder<I: Interpolator> {
    interpolator: I,
    fitted: Option<Fitted>,
    ghost level: { (found : Fitted) → fitted ≡ Some found
        → (rate_by found.pace).lookahead ≡ lookahead_by (I.seen interpolator).method },
    ghost rested: { (I.seen interpolator).passed ≡ 0 },
}

impl<I: Interpolator> RateFeeder<I> {
    ghost use Rattle.feed_rate.specs.Feeders.{kept_of};

    /// A feeder that nothing is fitted to yet. All its memory, if it needs any, is taken here.
    pub fn new(alloc: Global) -> Result<RateFeeder<I>, AllocError>
        ensures ok { I.takes_memory ≡ false → IsOk result }
        ensures unfitted { IfOk result (λ made. kept_of made ≡ unfitted) }
    {
        Ok(RateFeeder {
            interpolator: I::new(alloc)?,
            fitted: None,
        })
    }
}

impl<I: Interpolator> Feeder for RateFeeder<I> {
    ghost use Rattle.feed_rate.specs.Feeders.{kept_of};

    ghost kind = { λ _. I.kind };

    ghost kept = { kept_of };

    // All have the same mark.
    ghost mark = { λ _. 0 };

    fn kind(&self) -> Kind {
        self.interpolator.kind()
    }

    fn fit(&mut self, spec: Spec) {
        self.interpolator.fit(spec);
        self.fitted = Some(Fitted::new(rate_of(spec)));
    }

    fn keep(&self, samples: &mut [i32]) -> Progress {
        let Some(fitted) = &self.fitted else {
            return AT_REST;
        };
        self.interpolator.keep(samples);
        fitted.pace.progress()
    }

    fn resume(&mut self, spec: Spec, progress: Progress, samples: &[i32]) {
        self.interpolator.resume(spec, samples);
        self.fitted = Some(Fitted::resumed(rate_of(spec), progress));
    }

    fn feed(&mut self, tables: &Tables, pull: Pull, input: &[i32], output: &mut [i32]) -> Moved {
        let Some(fitted) = &mut self.fitted else {
            return Moved { eaten: 0, given: 0 };
        };
        let offered = input.len() / self.interpolator.channels();
        let eaten = fitted.pace.eaten(offered, pull.want);
        let given = fitted.pace.given(offered, pull.want);
        let moved = Moved { eaten, given };
        let step = fitted.put_frames(&mut self.interpolator, tables, input, moved, output);
        fitted.pace = fitted.pace.moved(eaten, step);
        moved
    }
}

// The rate of a stage.
fn rate_of(spec: Spec) -> Rate
    requires { IsSpec spec }
    ensures { result ≡ rate_of spec }
{
    match spec {
        Spec::Hold { src, dst, .. } => Rate {
            src,
            dst,
            lookahead: 0,
        },
        Spec::Linear { src, dst, .. } => Rate {
            src,
            dst,
            lookahead: 1,
        },
        Spec::Poly { src, dst, taps, .. } => Rate {
            src,
            dst,
            lookahead: (taps / 2) as u32,
        },
        Spec::Matrix { .. } | Spec::Volume { .. } | Spec::Depth { .. } | Spec::Eq { .. } =>
            UNCHANGED,
    }
}
