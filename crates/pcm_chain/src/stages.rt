//! The boxes of stages, fitted and fed one after another.

ghost use Rattle.std.specs.Prelude.{◌≡◌, ◌≤◌, ◌*◌, length, All};
ghost use Rattle.pcm_num.specs.Limit.{FitsBits};
ghost use Rattle.pcm_rate.specs.Rates.{unchanged};
ghost use Rattle.pcm_feeder.specs.declared.stage.Spec.{Spec};
ghost use Rattle.pcm_feeder.specs.Kept.{fresh, CanCopy, CanResume, IsKeptAs};
ghost use Rattle.pcm_feeder.specs.Limits.{AreChannels, IsSpec, IsGain};
ghost use Rattle.pcm_feeder.specs.Racks.{marks_of, HaveKinds};
ghost use Rattle.pcm_feeder.specs.Stages.{channels_in, channels_out, history};
ghost use Rattle.pcm_feeder.specs.Streams.{written};
ghost use Rattle.pcm_plan.specs.Plans.{rate_among};
ghost use Rattle.pcm_plan.specs.Fits.{AreDistinct, HaveBits, HaveTables};
ghost use Rattle.pcm_chain.specs.Bits.{bits_after};
ghost use Rattle.pcm_chain.specs.Boxes.{kept_in, CanFit, CanResumeAll, HasResumed, HaveResumed, HaveFitted, KeepOthers, KeepAllOthers};
ghost use Rattle.pcm_chain.specs.Feeds.{asked, fed_in, first_staged, CanFeedIn, GoneThrough, HaveRoom};
ghost use Rattle.pcm_chain.specs.declared.staging.TheConstants.{BLOCK_FRAMES, BLOCK_SAMPLES};

use crate::staging::Staging;
use pcm_feeder::{Feeder, Gain, Progress, Pull, SevenOf, Spec, Tables};

/// Fits the box of each stage to it. Each box stays in its place.
pub fn fit_stages<B: Feeder>(boxes: &mut SevenOf<B>, stages: &[Spec])
    requires kinds { HaveKinds B.kind boxes.old }
    requires limits { All IsSpec stages.now }
    requires distinct { AreDistinct stages.now }
    ensures kinds { HaveKinds B.kind boxes.new }
    ensures fresh { All (λ spec. kept_in B.kept boxes.new spec ≡ fresh spec) stages.now }
    ensures marks { marks_of B.mark boxes.new ≡ marks_of B.mark boxes.old }
{
    for spec in stages {
        fit_stage(boxes, *spec);
    }
}

// Fits the box of a stage to it. The other boxes keep what they kept.
fn fit_stage<B: Feeder>(boxes: &mut SevenOf<B>, spec: Spec)
    requires { CanFit B.kind boxes.old spec }
    ensures kinds { HaveKinds B.kind boxes.new }
    ensures fresh { kept_in B.kept boxes.new spec ≡ fresh spec }
    ensures others { KeepOthers B.kept spec boxes.old boxes.new }
    ensures marks { marks_of B.mark boxes.new ≡ marks_of B.mark boxes.old }
{
    match spec {
        Spec::Matrix { .. } => boxes.matrix.fit(spec),
        Spec::Hold { .. } => boxes.hold.fit(spec),
        Spec::Linear { .. } => boxes.linear.fit(spec),
        Spec::Poly { .. } => boxes.poly.fit(spec),
        Spec::Volume { .. } => boxes.volume.fit(spec),
        Spec::Depth { .. } => boxes.depth.fit(spec),
        Spec::Eq { .. } => boxes.eq.fit(spec),
    }
}

/// Lets the box of each stage go on where another rack's box of it is. Each box stays in its place. The samples are scratch.
pub fn resume_stages<B: Feeder>(
    boxes: &mut SevenOf<B>,
    others: &SevenOf<B>,
    stages: &[Spec],
    samples: &mut [i32],
)
    requires can { CanResumeAll B.kind B.kept stages.now boxes.old others.now }
    requires room { BLOCK_SAMPLES ≤ length samples.old }
    ensures { HaveResumed B.kind B.kept B.mark stages.now others.now boxes.old boxes.new }
{
    for spec in stages {
        let kept = &mut samples[..history(*spec) * channels_in(*spec)];
        let progress = keep_stage(others, *spec, kept);
        resume_stage(boxes, *spec, progress, kept);
    }
}

/// Copies what the box of a stage keeps, and tells how far it is.
pub fn keep_stage<B: Feeder>(boxes: &SevenOf<B>, spec: Spec, samples: &mut [i32]) -> Progress
    requires { CanCopy spec (kept_in B.kept boxes.now spec) samples.old }
    ensures { IsKeptAs (kept_in B.kept boxes.now spec) result samples.new }
{
    match spec {
        Spec::Matrix { .. } => boxes.matrix.keep(samples),
        Spec::Hold { .. } => boxes.hold.keep(samples),
        Spec::Linear { .. } => boxes.linear.keep(samples),
        Spec::Poly { .. } => boxes.poly.keep(samples),
        Spec::Volume { .. } => boxes.volume.keep(samples),
        Spec::Depth { .. } => boxes.depth.keep(samples),
        Spec::Eq { .. } => boxes.eq.keep(samples),
    }
}

/// Lets the box of a stage go on from what was kept. The other boxes keep what they kept.
pub fn resume_stage<B: Feeder>(
    boxes: &mut SevenOf<B>,
    spec: Spec,
    progress: Progress,
    samples: &[i32],
)
    requires kinds { HaveKinds B.kind boxes.old }
    requires can { CanResume spec progress samples.now }
    ensures { HasResumed B.kind B.kept B.mark spec progress samples.now boxes.old boxes.new }
{
    match spec {
        Spec::Matrix { .. } => boxes.matrix.resume(spec, progress, samples),
        Spec::Hold { .. } => boxes.hold.resume(spec, progress, samples),
        Spec::Linear { .. } => boxes.linear.resume(spec, progress, samples),
        Spec::Poly { .. } => boxes.poly.resume(spec, progress, samples),
        Spec::Volume { .. } => boxes.volume.resume(spec, progress, samples),
        Spec::Depth { .. } => boxes.depth.resume(spec, progress, samples),
        Spec::Eq { .. } => boxes.eq.resume(spec, progress, samples),
    }
}

/// Puts the first `frames` frames of a staging, each of `source` channels, through stages that each give to the next one. The
/// last one gives at most `want` frames to the front of `out`. Returns how many these are.
pub fn feed_stages<B: Feeder>(
    boxes: &mut SevenOf<B>,
    stages: &[Spec],
    source: usize,
    tables: &Tables,
    gain: Gain,
    frames: usize,
    want: usize,
    staging: &mut Staging,
    out: &mut [i32],
) -> usize
    requires limits { All IsSpec stages.now }
    requires distinct { AreDistinct stages.now }
    requires fitted { HaveFitted B.kept boxes.old stages.now }
    requires gain { IsGain gain }
    requires tables { HaveTables stages.now tables.now }
    requires channels { AreChannels source }
    requires offered { frames ≤ BLOCK_FRAMES }
    requires wanted { want ≤ BLOCK_FRAMES }
    requires level { rate_among stages.now ≡ unchanged → frames ≤ want }
    requires room { HaveRoom source stages.now want (length out.old) }
    ensures kinds { HaveKinds B.kind boxes.old → HaveKinds B.kind boxes.new }
    ensures others { KeepAllOthers B.kept stages.now boxes.old boxes.new }
    ensures gone { GoneThrough (kept_in B.kept boxes.old) (kept_in B.kept boxes.new)
        tables.now gain want stages.now (first_staged frames source staging.old)
        result out.old out.new }
{
    if stages.is_empty() {
        let samples = frames * source;
        out[..samples].copy_from_slice(&staging.now[..samples]);
        tell_bits(out);
        return frames;
    }
    let spec = stages[0];
    let rest = &stages[1..];
    if rest.is_empty() {
        return feed_stage(boxes, spec, tables, gain, frames, want, &staging.now, out);
    }
    let given = feed_stage(
        boxes,
        spec,
        tables,
        gain,
        frames,
        want,
        &staging.now,
        &mut staging.next,
    );
    staging.turn();
    feed_stages(
        boxes,
        rest,
        channels_out(spec),
        tables,
        gain,
        given,
        want,
        staging,
        out,
    )
}

// Feeds the first `frames` frames of `input` to a stage, which gives frames to the front of `output`, of no more bits than it leaves.
// Returns how many these are.
fn feed_stage<B: Feeder>(
    boxes: &mut SevenOf<B>,
    spec: Spec,
    tables: &Tables,
    gain: Gain,
    frames: usize,
    want: usize,
    input: &[i32],
    output: &mut [i32],
) -> usize
    requires { CanFeedIn B.kept boxes.old spec tables.now gain frames want input.now output.old }
    ensures kinds { HaveKinds B.kind boxes.old → HaveKinds B.kind boxes.new }
    ensures kept { kept_in B.kept boxes.new spec
        ≡ (fed_in B.kept boxes.old spec tables.now gain frames want input.now).kept }
    ensures others { KeepOthers B.kept spec boxes.old boxes.new }
    ensures given { result
        ≡ (fed_in B.kept boxes.old spec tables.now gain frames want input.now).given }
    ensures most { result ≤ asked spec want frames }
    ensures bits { HaveBits (bits_after spec)
        (fed_in B.kept boxes.old spec tables.now gain frames want input.now).frames }
    ensures frames { output.new ≡ written
        (fed_in B.kept boxes.old spec tables.now gain frames want input.now).frames output.old }
{
    let input = &input[..frames * channels_in(spec)];
    let offered = Pull { gain, want: frames };
    let wanted = Pull { gain, want };
    let moved = match spec {
        Spec::Matrix { .. } => boxes.matrix.feed(tables, offered, input, output),
        Spec::Hold { .. } => boxes.hold.feed(tables, wanted, input, output),
        Spec::Linear { .. } => boxes.linear.feed(tables, wanted, input, output),
        Spec::Poly { .. } => boxes.poly.feed(tables, wanted, input, output),
        Spec::Volume { .. } => boxes.volume.feed(tables, offered, input, output),
        Spec::Depth { .. } => boxes.depth.feed(tables, offered, input, output),
        Spec::Eq { .. } => boxes.eq.feed(tables, offered, input, output),
    };
    tell_bits(input);
    tell_bits(output);
    moved.given
}

// Tells that each sample has 32 bits, as its type keeps it. Nothing of this is left in the program.
fn tell_bits(samples: &[i32])
    ensures { All (FitsBits 32) samples.now }
{
    for sample in samples {
        let _value = *sample;
    }
}

/// The channels that a stage takes.
pub fn channels_in(spec: Spec) -> usize
    ensures { result ≡ channels_in spec }
{
    match spec {
        Spec::Matrix { from, .. } => from.channels(),
        Spec::Hold { channels, .. } => channels,
        Spec::Linear { channels, .. } => channels,
        Spec::Poly { channels, .. } => channels,
        Spec::Volume { layout } => layout.channels(),
        Spec::Depth { channels, .. } => channels,
        Spec::Eq { channels, .. } => channels,
    }
}

// The channels that a stage gives.
fn channels_out(spec: Spec) -> usize
    ensures { result ≡ channels_out spec }
{
    match spec {
        Spec::Matrix { to, .. } => to.channels(),
        _ => channels_in(spec),
    }
}

/// How many frames of the past a stage keeps.
pub fn history(spec: Spec) -> usize
    requires { IsSpec spec }
    ensures { result ≡ history spec }
{
    match spec {
        Spec::Hold { .. } => 1,
        Spec::Linear { .. } => 2,
        Spec::Poly { taps, .. } => taps,
        Spec::Eq { sections, .. } => 2 + 2 * sections,
        _ => 0,
    }
}
