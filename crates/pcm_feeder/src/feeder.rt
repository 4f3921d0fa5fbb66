//! The interface of every stage.

use crate::{Kind, Moved, Progress, Pull, Spec, Tables};

/// A stage of a chain. What it gives follows from what it keeps and from the arguments alone.
pub trait Feeder: Drop {
    ghost use Rattle.std.specs.Prelude.{◌≡◌, ◌≤◌, ℕ};
    ghost use Rattle.pcm_feeder.specs.declared.kind.Kind.{Kind};
    ghost use Rattle.pcm_feeder.specs.Kept.{Kept, fresh, resumed, CanBeKept, CanResume, IsKeptAs};
    ghost use Rattle.pcm_feeder.specs.Limits.{IsSpec};
    ghost use Rattle.pcm_feeder.specs.Kinds.{kind_of};
    ghost use Rattle.pcm_feeder.specs.Streams.{written};
    ghost use Rattle.pcm_feeder.specs.Turns.{fed, CanBeFed};

    ghost kind: { Self → Kind };

    ghost kept: { Self → Kept };

    // The mark by which a proof knows it among other stages. No call changes it.
    ghost mark: { Self → ℕ };

    /// What the stage does, which never changes.
    fn kind(&self) -> Kind
        ensures { result ≡ kind self.now };

    /// Begins an empty stream. Takes no memory.
    fn fit(&mut self, spec: Spec)
        requires kind { kind_of spec ≡ kind self.old }
        requires limits { IsSpec spec }
        ensures kept { kept self.new ≡ fresh spec }
        ensures kind { kind self.new ≡ kind self.old }
        ensures mark { mark self.new ≡ mark self.old };

    /// Copies the frames that it keeps of the past, interleaved, and tells how far it is: what `resume` goes on from.
    fn keep(&self, samples: &mut [i32]) -> Progress
        requires { CanBeKept (kept self.now) samples.old }
        ensures { IsKeptAs (kept self.now) result samples.new };

    /// Goes on where a stage is that was fitted to this and has kept so much. Takes no memory.
    fn resume(&mut self, spec: Spec, progress: Progress, samples: &[i32])
        requires kind { kind_of spec ≡ kind self.old }
        requires can { CanResume spec progress samples.now }
        ensures kept { kept self.new ≡ resumed spec progress samples.now }
        ensures kind { kind self.new ≡ kind self.old }
        ensures mark { mark self.new ≡ mark self.old };

    /// Eats frames of `input`, no more than the frames wanted use, and puts at most the frames wanted
    /// at the front of `output`. Both hold interleaved samples. Takes no memory.
    fn feed(&mut self, tables: &Tables, pull: Pull, input: &[i32], output: &mut [i32]) -> Moved
        requires { CanBeFed (kept self.old) tables.now pull.gain input.now pull.want output.old }
        ensures eaten { result.eaten
            ≡ (fed (kept self.old) tables.now pull.gain input.now pull.want).eaten }
        ensures given { result.given
            ≡ (fed (kept self.old) tables.now pull.gain input.now pull.want).given }
        ensures most { result.given ≤ pull.want }
        ensures frames { output.new ≡ written
            (fed (kept self.old) tables.now pull.gain input.now pull.want).frames output.old }
        ensures kept { kept self.new
            ≡ (fed (kept self.old) tables.now pull.gain input.now pull.want).kept }
        ensures spec { (kept self.new).spec ≡ (kept self.old).spec }
        ensures kind { kind self.new ≡ kind self.old }
        ensures mark { mark self.new ≡ mark self.old };
}

impl Feeder for Box<dyn Feeder> {
    ghost kind = { λ b. (Feeder-box b).kind b.value };

    ghost kept = { λ b. (Feeder-box b).kept b.value };

    ghost mark = { λ b. (Feeder-box b).mark b.value };

    fn kind(&self) -> Kind {
        (**self).kind()
    }

    fn fit(&mut self, spec: Spec) {
        (**self).fit(spec)
    }

    fn keep(&self, samples: &mut [i32]) -> Progress {
        (**self).keep(samples)
    }

    fn resume(&mut self, spec: Spec, progress: Progress, samples: &[i32]) {
        (**self).resume(spec, progress, samples)
    }

    fn feed(&mut self, tables: &Tables, pull: Pull, input: &[i32], output: &mut [i32]) -> Moved {
        (**self).feed(tables, pull, input, output)
    }
}
