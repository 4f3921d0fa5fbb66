//! The stages between two layouts, in their order.

ghost use Rattle.std.specs.Prelude.{◌≡◌, ◌<◌, List, [], ◌∷◌, All, unwrap_or};
ghost use Rattle.pcm_feeder.specs.declared.stage.Spec.{Spec};
ghost use Rattle.pcm_feeder.specs.Limits.{IsSpec};
ghost use Rattle.pcm_plan.specs.Plans.{rate_among};

use arrayvec::ArrayVec;
use pcm_feeder::Spec;
use pcm_format::Layout;
use pcm_num::reduce;
use pcm_rate::{Rate, UNCHANGED};
use std::marker::Model;

/// How many stages a plan has at most.
pub const STAGES: usize = 5;

/// Stages that fit each other, and the layouts before the first and after the last.
#[derive(Drop)]
pub struct Plan {
    source: Layout,
    target: Layout,
    stages: ArrayVec<Spec, STAGES>,
    // The rate and its period are asked for at each block, so they are found once.
    rate: Rate,
    period: (u32, u32),
}

impl Model for Plan {
    ghost use Rattle.pcm_plan.specs.Plans.{PlanSeen};
    ghost use Rattle.pcm_plan.specs.Fits.{IsKept};

    ghost Value = { PlanSeen };

    ghost view = { λ plan. record {
      source = plan.source;
      target = plan.target;
      stages = plan.stages.items;
    } };

    ghost invariant = { λ plan. IsKept (record {
      source = plan.source;
      target = plan.target;
      stages = plan.stages.items;
    }) plan.rate plan.period.0 plan.period.1 };
}

impl Plan {
    ghost use Rattle.std.specs.Int.{IsGcd};
    ghost use Rattle.pcm_num.specs.Fraction.{HasCommonFactor};
    ghost use Rattle.pcm_rate.specs.Rates.{IsRatio, IsPeriod, need, can, len};
    ghost use Rattle.pcm_plan.specs.Plans.{rate_in_plan};
    ghost use Rattle.pcm_plan.specs.Fits.{IsPlan};

    // The plan of stages.
    pub(crate) fn of(source: Layout, target: Layout, stages: ArrayVec<Spec, STAGES>) -> Plan
        requires { IsPlan (record { source = source; target = target; stages = stages.items }) }
        ensures { result ≡ record { source = source; target = target; stages = stages.items } }
    {
        let rate = rate_among(stages.as_slice());
        Plan {
            source,
            target,
            stages,
            rate,
            period: reduce(rate.src, rate.dst),
        }
    }

    /// The plan without a stage.
    pub fn straight(layout: Layout) -> Plan
        ensures { result ≡ record { source = layout; target = layout; stages = [] } }
    {
        Plan::of(layout, layout, ArrayVec::new())
    }

    /// A copy of the plan.
    pub fn copy(&self) -> Plan
        ensures { result ≡ self.now }
    {
        let mut stages = ArrayVec::new();
        for spec in self.stages() {
            stages.push(*spec);
        }
        Plan {
            source: self.source,
            target: self.target,
            stages,
            rate: self.rate,
            period: self.period,
        }
    }

    /// The layout before the first stage.
    pub fn source(&self) -> Layout
        ensures { result ≡ self.now.source }
    {
        self.source
    }

    /// The layout after the last stage.
    pub fn target(&self) -> Layout
        ensures { result ≡ self.now.target }
    {
        self.target
    }

    /// Lends the stages, the first one first.
    pub fn stages(&self) -> &[Spec]
        ensures value { result.now ≡ self.now.stages }
        ensures fits { IsPlan self.now }
    {
        self.stages.as_slice()
    }

    /// The rate of the stage that changes it.
    pub fn rate(&self) -> Rate
        ensures value { result ≡ rate_in_plan self.now }
        ensures ratio { IsRatio result }
        ensures fits { IsPlan self.now }
    {
        self.rate
    }

    /// How many frames of the input the first `outputs` outputs use.
    pub fn need(&self, outputs: u64) -> u128
        ensures { result ≡ need (rate_in_plan self.now) outputs }
    {
        self.rate().need(outputs)
    }

    /// How many outputs `frames` frames of the input allow while more may come.
    pub fn can(&self, frames: u64) -> u128
        ensures { result ≡ can (rate_in_plan self.now) frames }
    {
        self.rate().can(frames)
    }

    /// How many outputs last as long as `frames` frames of the input.
    pub fn len(&self, frames: u64) -> u128
        ensures { result ≡ len (rate_in_plan self.now) frames }
    {
        self.rate().len(frames)
    }

    /// The numbers of input frames and of outputs that last equally long, in lowest terms.
    pub fn period(&self) -> (u32, u32)
        ensures period { IsPeriod (rate_in_plan self.now) result.0 result.1 }
        ensures same { HasCommonFactor (rate_in_plan self.now).src (rate_in_plan self.now).dst result.0 result.1 }
        ensures lowest { IsGcd result.0 result.1 1 }
        ensures frames { 0 < result.0 }
        ensures outputs { 0 < result.1 }
    {
        self.period
    }
}

// The rate of stages: that of the one that changes it.
fn rate_among(stages: &[Spec]) -> Rate
    requires { All IsSpec stages.now }
    ensures { result ≡ rate_among stages.now }
{
    for spec in stages {
        if let Some(rate) = rate_of(*spec) {
            return rate;
        }
    }
    UNCHANGED
}

// The rate of a stage that changes it.
fn rate_of(spec: Spec) -> Option<Rate>
    requires { IsSpec spec }
    ensures { (rest : List Spec) → rate_among (spec ∷ rest) ≡ unwrap_or result (rate_among rest) }
{
    match spec {
        Spec::Matrix { .. } | Spec::Volume { .. } | Spec::Depth { .. } | Spec::Eq { .. } => None,
        Spec::Hold { src, dst, .. } => Some(Rate {
            src,
            dst,
            lookahead: 0,
        }),
        Spec::Linear { src, dst, .. } => Some(Rate {
            src,
            dst,
            lookahead: 1,
        }),
        Spec::Poly { src, dst, taps, .. } => Some(Rate {
            src,
            dst,
            lookahead: (taps / 2) as u32,
        }),
    }
}
