//! What the boxes of stages keep of the past, and how far they are.

ghost use Rattle.std.specs.Prelude.{◌≡◌, ◌≤◌};
ghost use Rattle.pcm_chain.specs.Boxes.{kept_in};
ghost use Rattle.pcm_chain.specs.Pasts.{past_in, past_sizes, progress_in, AreFewStages, CanKeepAll, CanTellAll, HaveTold};
ghost use Rattle.pcm_chain.specs.declared.past.TheConstants.{PAST_SAMPLES};

use crate::stages::{channels_in, history, keep_stage, resume_stage};
use pcm_feeder::{AT_REST, Feeder, Progress, SevenOf, Spec};
use pcm_plan::Plan;

/// How many samples of the past a chain keeps at most.
pub const PAST_SAMPLES: usize = 2560;

/// How many samples of the past a chain keeps that goes by a plan.
pub fn plan_past(plan: &Plan) -> usize
    ensures size { result ≡ past_sizes plan.now.stages }
    ensures most { result ≤ PAST_SAMPLES }
{
    past_sizes(plan.stages())
}

// How many samples of the past the boxes of stages keep.
fn past_sizes(stages: &[Spec]) -> usize
    requires { AreFewStages stages.now }
    ensures { result ≡ past_sizes stages.now }
{
    if stages.is_empty() {
        return 0;
    }
    history(stages[0]) * channels_in(stages[0]) + past_sizes(&stages[1..])
}

/// Copies these samples, one stage after another.
pub fn keep_stages<B: Feeder>(boxes: &SevenOf<B>, stages: &[Spec], past: &mut [i32])
    requires { CanKeepAll B.kept boxes.now stages.now past.old }
    ensures { past.new ≡ past_in (kept_in B.kept boxes.now) stages.now }
{
    if stages.is_empty() {
        return;
    }
    let size = history(stages[0]) * channels_in(stages[0]);
    keep_stage(boxes, stages[0], &mut past[..size]);
    keep_stages(boxes, &stages[1..], &mut past[size..]);
}

/// Lets the box of each stage go on from these samples: a converter after this progress, each other stage as at rest.
pub fn tell_stages<B: Feeder>(
    boxes: &mut SevenOf<B>,
    stages: &[Spec],
    progress: Progress,
    past: &[i32],
)
    requires { CanTellAll B.kind stages.now progress past.now boxes.old }
    ensures { HaveTold B.kind B.kept B.mark stages.now progress past.now boxes.old boxes.new }
{
    if stages.is_empty() {
        return;
    }
    let size = history(stages[0]) * channels_in(stages[0]);
    let at = progress_in(stages[0], progress);
    resume_stage(boxes, stages[0], at, &past[..size]);
    tell_stages(boxes, &stages[1..], progress, &past[size..]);
}

// The progress of a stage, where its converter has this one.
fn progress_in(spec: Spec, progress: Progress) -> Progress
    ensures { result ≡ progress_in spec progress }
{
    match spec {
        Spec::Hold { .. } | Spec::Linear { .. } | Spec::Poly { .. } => progress,
        _ => AT_REST,
    }
}
