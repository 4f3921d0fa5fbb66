//! The stage of any kind, and one of each.

ghost use Rattle.std.specs.Prelude.{◌≡◌, IfOk};
ghost use Rattle.pcm_feeder.specs.Racks.{HaveKinds};

use crate::any::AnyOf;
use feed_eq::EqFeeder;
use feed_format::DepthFeeder;
use feed_hold::HoldFeeder;
use feed_linear::LinearFeeder;
use feed_matrix::MatrixFeeder;
use feed_poly::PolyFeeder;
use feed_volume::VolumeFeeder;
use pcm_feeder::{Feeder, Kind, Moved, Progress, Pull, SevenOf, Spec, Tables};
use std::alloc::{AllocError, Global};

// The seven of this product.
type AnyStage = AnyOf<
    MatrixFeeder,
    HoldFeeder,
    LinearFeeder,
    PolyFeeder,
    VolumeFeeder,
    DepthFeeder,
    EqFeeder,
>;

/// A stage of any kind, in a block of its own: so racks and engines of stages are moved by a few bytes.
#[derive(Drop)]
pub struct Stage {
    of: Box<AnyStage>,
}

impl Feeder for Stage {
    ghost kind = { λ stage. ⟦<AnyStage as Feeder>⟧.kind stage.of.value };

    ghost kept = { λ stage. ⟦<AnyStage as Feeder>⟧.kept stage.of.value };

    ghost mark = { λ stage. ⟦<AnyStage as Feeder>⟧.mark stage.of.value };

    fn kind(&self) -> Kind {
        self.of.kind()
    }

    fn fit(&mut self, spec: Spec) {
        self.of.fit(spec)
    }

    fn keep(&self, samples: &mut [i32]) -> Progress {
        self.of.keep(samples)
    }

    fn resume(&mut self, spec: Spec, progress: Progress, samples: &[i32]) {
        self.of.resume(spec, progress, samples)
    }

    fn feed(&mut self, tables: &Tables, pull: Pull, input: &[i32], output: &mut [i32]) -> Moved {
        self.of.feed(tables, pull, input, output)
    }
}

// A stage in its block.
fn boxed(alloc: Global, stage: AnyStage) -> Result<Stage, AllocError>
    ensures { IfOk result (λ made. made.of.value ≡ stage) }
{
    Ok(Stage {
        of: Box::new(alloc, stage)?,
    })
}

/// A stage of each kind, in its place. Nothing is fitted to them yet.
// Not inlined: the stages stand on the stack only while they are made.
#[inline(never)]
pub fn seven_stages(alloc: Global) -> Result<SevenOf<Stage>, AllocError>
    ensures kinds { IfOk result (HaveKinds ⟦<Stage as Feeder>⟧.kind) }
{
    Ok(SevenOf {
        matrix: boxed(alloc, AnyOf::Matrix(MatrixFeeder::new(alloc)?))?,
        hold: boxed(alloc, AnyOf::Hold(HoldFeeder::new(alloc)?))?,
        linear: boxed(alloc, AnyOf::Linear(LinearFeeder::new(alloc)?))?,
        poly: boxed(alloc, AnyOf::Poly(PolyFeeder::new(alloc)?))?,
        volume: boxed(alloc, AnyOf::Volume(VolumeFeeder::new(alloc)?))?,
        depth: boxed(alloc, AnyOf::Depth(DepthFeeder::new(alloc)?))?,
        eq: boxed(alloc, AnyOf::Eq(EqFeeder::new(alloc)?))?,
    })
}
