//! Which stages lie between two settings, and in what order.
#![tactic(auto, unfolding(crate::proofs::Computing::row))]

ghost use Rattle.std.specs.Prelude.{◌≡◌, ◌∷◌, []};
ghost use Rattle.pcm_format.specs.declared.layout.Layout.TheVariants.{One, Two, Six};
ghost use Rattle.pcm_desk.specs.Device.{play_plan_between};
ghost use Rattle.pcm_feeder.specs.Filters.{no_filters};
ghost use Rattle.pcm_desk.specs.Usual.{usual_device, usual_settings};
ghost use Rattle.pcm_feeder.specs.declared.stage.Spec.TheVariants.{Matrix, Linear, Poly, Volume};
ghost use Rattle.pcm_rows.specs.ClientRates.{half_settings};
ghost use Rattle.pcm_rows.specs.PlanRows.{sixteen_bits, six_settings, plan_of, plan_16, stages_after, wide_device, plan_by_lines, doubling_plan, high_step, first_outs, downmix_plan, late_downmix_plan, downmix_frames};
ghost use Rattle.pcm_rows.specs.Stages.{hold_from, in_both, levels, line_from, two_taps};

/// A client with the device's settings goes through the volume and the depth, one of six channels
/// through a matrix before, and a device of 32 bits has no depth.
pub fn plans_at_the_rate_of_the_device()
    ensures usual { play_plan_between usual_device usual_settings ≡ plan_16 Two Two [] }
    ensures six { play_plan_between usual_device six_settings ≡ plan_16 Six Two (Matrix Six Two ∷ []) }
    ensures wide { play_plan_between wide_device usual_settings ≡ plan_of Two Two (Volume Two ∷ []) }
{}

/// The rate is changed where there are fewer channels.
pub fn rate_is_changed_at_the_fewer_channels()
    ensures same { plan_by_lines half_settings usual_settings ≡ plan_16 Two Two (Linear 24000 48000 2 ∷ []) }
    ensures more { plan_by_lines half_settings six_settings ≡ plan_16 Two Six (Linear 24000 48000 2 ∷ Matrix Two Six ∷ []) }
    ensures fewer { plan_by_lines (sixteen_bits Six 24000) usual_settings ≡ plan_16 Six Two (Matrix Six Two ∷ Linear 24000 48000 2 ∷ []) }
{}

/// Two channels become one before the rate changes, and a device of 32 bits has no depth. Each stage
/// rounds down, so that the other order would give other frames.
pub fn downmix_comes_before_the_rate()
    ensures plan { downmix_plan ≡ plan_of Two One (Matrix Two One ∷ Linear 24000 48000 1 ∷ Volume One ∷ []) }
    ensures frames { first_outs downmix_plan downmix_frames 4 ≡ levels (0 ∷ 0 ∷ 1 ∷ 0 ∷ []) }
    ensures other { first_outs late_downmix_plan downmix_frames 4 ≡ levels (0 ∷ 1 ∷ 1 ∷ 0 ∷ []) }
{}

/// Quality 0 holds, 1 draws a line, and 2 filters where there is a filter, or else draws a line.
pub fn quality_chooses_the_converter()
    ensures hold { (doubling_plan two_taps 0).stages ≡ stages_after (hold_from 24000) }
    ensures linear { (doubling_plan two_taps 1).stages ≡ stages_after (line_from 24000) }
    ensures filter { (doubling_plan two_taps 2).stages ≡ stages_after (Poly 24000 48000 1 0 2) }
    ensures none { (doubling_plan no_filters 2).stages ≡ stages_after (line_from 24000) }
{}

/// A plan gives what its stages give one after another: 0 and 100 in steps of 65536 become 0, 50,
/// 100 and 50 of 16 bits on both sides.
pub fn plan_doubles_the_rate()
    ensures frames { first_outs (doubling_plan no_filters 1) high_step 4 ≡ in_both (0 ∷ 50 ∷ 100 ∷ 50 ∷ []) }
{}
