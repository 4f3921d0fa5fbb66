//! The stage of any type.

use pcm_feeder::{Feeder, Kind, Moved, Progress, Pull, Spec, Tables};

/// A stage of one of seven types, each for a kind of its own.
#[derive(Drop)]
pub enum AnyOf<M, H, L, P, V, D, E> {
    Matrix(M),
    Hold(H),
    Linear(L),
    Poly(P),
    Volume(V),
    Depth(D),
    Eq(E),
}

impl<M: Feeder, H: Feeder, L: Feeder, P: Feeder, V: Feeder, D: Feeder, E: Feeder> Feeder
    for AnyOf<M, H, L, P, V, D, E> {
    ghost use Rattle.feed_stages.specs.Stages.{by_stage};

    ghost kind = { by_stage M.kind H.kind L.kind P.kind V.kind D.kind E.kind };

    ghost kept = { by_stage M.kept H.kept L.kept P.kept V.kept D.kept E.kept };

    ghost mark = { by_stage M.mark H.mark L.mark P.mark V.mark D.mark E.mark };

    fn kind(&self) -> Kind {
        match self {
            AnyOf::Matrix(stage) => stage.kind(),
            AnyOf::Hold(stage) => stage.kind(),
            AnyOf::Linear(stage) => stage.kind(),
            AnyOf::Poly(stage) => stage.kind(),
            AnyOf::Volume(stage) => stage.kind(),
            AnyOf::Depth(stage) => stage.kind(),
            AnyOf::Eq(stage) => stage.kind(),
        }
    }

    fn fit(&mut self, spec: Spec) {
        match self {
            AnyOf::Matrix(stage) => stage.fit(spec),
            AnyOf::Hold(stage) => stage.fit(spec),
            AnyOf::Linear(stage) => stage.fit(spec),
            AnyOf::Poly(stage) => stage.fit(spec),
            AnyOf::Volume(stage) => stage.fit(spec),
            AnyOf::Depth(stage) => stage.fit(spec),
            AnyOf::Eq(stage) => stage.fit(spec),
        }
    }

    fn keep(&self, samples: &mut [i32]) -> Progress {
        match self {
            AnyOf::Matrix(stage) => stage.keep(samples),
            AnyOf::Hold(stage) => stage.keep(samples),
            AnyOf::Linear(stage) => stage.keep(samples),
            AnyOf::Poly(stage) => stage.keep(samples),
            AnyOf::Volume(stage) => stage.keep(samples),
            AnyOf::Depth(stage) => stage.keep(samples),
            AnyOf::Eq(stage) => stage.keep(samples),
        }
    }

    fn resume(&mut self, spec: Spec, progress: Progress, samples: &[i32]) {
        match self {
            AnyOf::Matrix(stage) => stage.resume(spec, progress, samples),
            AnyOf::Hold(stage) => stage.resume(spec, progress, samples),
            AnyOf::Linear(stage) => stage.resume(spec, progress, samples),
            AnyOf::Poly(stage) => stage.resume(spec, progress, samples),
            AnyOf::Volume(stage) => stage.resume(spec, progress, samples),
            AnyOf::Depth(stage) => stage.resume(spec, progress, samples),
            AnyOf::Eq(stage) => stage.resume(spec, progress, samples),
        }
    }

    fn feed(&mut self, tables: &Tables, pull: Pull, input: &[i32], output: &mut [i32]) -> Moved {
        match self {
            AnyOf::Matrix(stage) => stage.feed(tables, pull, input, output),
            AnyOf::Hold(stage) => stage.feed(tables, pull, input, output),
            AnyOf::Linear(stage) => stage.feed(tables, pull, input, output),
            AnyOf::Poly(stage) => stage.feed(tables, pull, input, output),
            AnyOf::Volume(stage) => stage.feed(tables, pull, input, output),
            AnyOf::Depth(stage) => stage.feed(tables, pull, input, output),
            AnyOf::Eq(stage) => stage.feed(tables, pull, input, output),
        }
    }
}
