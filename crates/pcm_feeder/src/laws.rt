//! What holds of all stages: each function here has no work, and its contract is a law.

ghost use Rattle.std.specs.Prelude.{◌≢◌, ◌<◌, ℕ, ℤ, List, []};
ghost use Rattle.pcm_format.specs.declared.layout.Layout.{Layout};
ghost use Rattle.pcm_format.specs.declared.settings.Settings.{Settings};
ghost use Rattle.pcm_feeder.specs.declared.stage.Gain.{Gain};
ghost use Rattle.pcm_feeder.specs.declared.stage.Spec.{Spec};
ghost use Rattle.pcm_feeder.specs.declared.stage.Spec.TheVariants as specs;
ghost use Rattle.pcm_feeder.specs.Filters.{Filters};
ghost use Rattle.pcm_feeder.specs.declared.kind.Kind.TheVariants as kinds;
ghost use Rattle.pcm_feeder.specs.Kinds.{kind_of};
ghost use Rattle.pcm_feeder.specs.Kept.{fresh, StandsFor};
ghost use Rattle.pcm_feeder.specs.Laws.{AreJoinedAgain, AreCutAgain, AreLoaded, AllowsWhatReaches, UsesWhatIsNeeded, UsesNoGain, GivesItsChannels, KeepsSilence, MapsStreams, FeedsMapFrames, FeedsContinue, ResumesWhatWasKept, StandsWithAnyTables, StandsWithinBounds, FeedsStayFitted};
ghost use Rattle.pcm_feeder.specs.Layouts.{in_layout, at_gain};
ghost use Rattle.pcm_feeder.specs.Limits.{IsSpec};
ghost use Rattle.pcm_rate.specs.declared.rate.Rate.{Rate};
ghost use Rattle.pcm_feeder.specs.Stages.{at_bits};
ghost use Rattle.pcm_feeder.specs.Streams.{HaveChannels, frames_of};

/// Frames are interleaved samples cut, and nothing is lost by cutting and joining.
pub fn frames_are_samples()
    ensures joined { (channels : ℕ) → AreJoinedAgain channels }
    ensures cut { (channels : ℕ) → 0 < channels → AreCutAgain channels }
    ensures channels { (c : ℕ) (samples : List ℤ) → HaveChannels c (frames_of c samples) }
    ensures loaded { (settings : Settings) → AreLoaded settings }
{}

/// From a phase on as many outputs are allowed as reach no further than the frames.
pub fn allowed_outputs_reach_no_further()
    ensures allowed { (rate : Rate) → 0 < rate.src → 0 < rate.dst → AllowsWhatReaches rate }
{}

/// An output uses the frames that its count names and no other, and gives the channels of its
/// stage. The gain counts for a volume stage alone.
pub fn outputs_use_what_is_needed()
    ensures local { (spec : Spec) → IsSpec spec → UsesWhatIsNeeded spec }
    ensures gain { (spec : Spec) → kind_of spec ≢ kinds.Volume → UsesNoGain spec }
    ensures channels { (spec : Spec) → GivesItsChannels spec }
{}

/// A stage without a change of rate gives silence for silence.
pub fn silence_stays_silence()
    ensures in_layout { (from to : Layout) → KeepsSilence (specs.Matrix from to) (in_layout from to) }
    ensures at_gain { (layout : Layout) (gain : Gain)
        → KeepsSilence (specs.Volume layout) (at_gain layout gain) }
    ensures bits { (bits channels : ℕ) → KeepsSilence (specs.Depth bits channels) (at_bits bits) }
    ensures layout_list { (from to : Layout)
        → MapsStreams (specs.Matrix from to) (λ _. in_layout from to) }
    ensures gain_list { (layout : Layout) → MapsStreams (specs.Volume layout) (at_gain layout) }
    ensures bits_list { (bits channels : ℕ)
        → MapsStreams (specs.Depth bits channels) (λ _. at_bits bits) }
{}

/// A feed goes on where the frames eaten and given before it end, for every list and count for
/// which what is kept stands. What is kept stays within bounds that name no length of the stream.
pub fn a_feed_continues_its_stream()
    ensures begins { (spec : Spec) (tables : Filters)
        → IsSpec spec → StandsFor spec tables (fresh spec) [] 0 }
    ensures continues { (spec : Spec) → IsSpec spec → FeedsContinue spec }
    ensures any_tables { (spec : Spec) → StandsWithAnyTables spec }
    ensures bounded { (spec : Spec) → IsSpec spec → StandsWithinBounds spec }
    ensures stays { (spec : Spec) → IsSpec spec → FeedsStayFitted spec }
{}

/// What a stage has kept is what another one goes on from.
pub fn a_stage_resumes_what_it_kept()
    ensures { (spec : Spec) → IsSpec spec → ResumesWhatWasKept spec }
{}

/// A feed of a stage without a change of rate turns each frame by itself.
pub fn stages_without_a_rate_map_frames()
    ensures matrix { (from to : Layout)
        → FeedsMapFrames (specs.Matrix from to) (λ _. in_layout from to) }
    ensures volume { (layout : Layout) → FeedsMapFrames (specs.Volume layout) (at_gain layout) }
    ensures depth { (bits channels : ℕ)
        → FeedsMapFrames (specs.Depth bits channels) (λ _. at_bits bits) }
{}
