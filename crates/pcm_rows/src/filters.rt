//! Filters: what comes out of one, what it waits for, and which one a plan takes.
#![tactic(auto, unfolding(crate::proofs::Computing::row))]

ghost use Rattle.std.specs.Prelude.{◌≡◌, pos, negsuc, [], ◌∷◌, Some, None};
ghost use Rattle.pcm_format.specs.declared.layout.Layout.TheVariants.{One, Two};
ghost use Rattle.pcm_desk.specs.Device.{play_rate_between};
ghost use Rattle.pcm_feeder.specs.Filters.{no_filters};
ghost use Rattle.pcm_desk.specs.Usual.{usual_settings};
ghost use Rattle.pcm_feeder.specs.declared.stage.Spec.TheVariants.{Poly, Volume, Depth};
ghost use Rattle.pcm_feeder.specs.Layouts.{unity};
ghost use Rattle.pcm_feeder.specs.Stages.{rate_of};
ghost use Rattle.pcm_feeder.specs.Sums.{scaled_down};
ghost use Rattle.pcm_rate.specs.Rates.{need, can, len};
ghost use Rattle.pcm_plan.specs.Plans.{filter_for, plan_play};
ghost use Rattle.pcm_plan.specs.Through.{outs};
ghost use Rattle.pcm_rows.specs.ClientRates.{filtered_device, filtered_plan, filtered_settings};
ghost use Rattle.pcm_rows.specs.FilterRows.{three_rows, four_taps, first_feed_by, doubling, by_rates, only_back, tripling_plan, tripling, by_four_thirds, five_and_six, five_and_six_tripled, sums_of, tens, two_sided, two_sided_doubled, high_five_and_six, five_and_six_played};
ghost use Rattle.pcm_rows.specs.PlanRows.{doubling_plan, plan_of, stages_after};
ghost use Rattle.pcm_rows.specs.RequestTable.{half_rate};
ghost use Rattle.pcm_rows.specs.Stages.{made_with, hold_from, levels, line_from, twice_each, two_taps};

/// Three times the rate by three rows: the sums of 5 and -6 are 20, 9, -13, -24, -18 and -6 quarters.
pub fn three_rows_triple()
    ensures frames { made_with three_rows tripling five_and_six 6 ≡ five_and_six_tripled }
    ensures len { len (rate_of tripling) 2 ≡ 6 }
{}

/// A sum is rounded to the nearest number, and a half is rounded up, also below zero.
pub fn halves_round_up()
    ensures above { scaled_down 1 (pos 3) ≡ pos 2 }
    ensures below { scaled_down 1 (negsuc 2) ≡ negsuc 0 }
    ensures zero { scaled_down 1 (negsuc 0) ≡ pos 0 }
    ensures quarter { scaled_down 2 (pos 1) ≡ pos 0 }
    ensures two_below { scaled_down 2 (negsuc 1) ≡ pos 0 }
    ensures three_below { scaled_down 2 (negsuc 2) ≡ negsuc 0 }
{}

/// What comes out is limited to 32 bits, on both sides.
pub fn sums_are_limited()
    ensures above { sums_of (pos 2147483647) (pos 1) ≡ twice_each (pos 2147483647 ∷ pos 1 ∷ []) }
    ensures below { sums_of (negsuc 2147483647) (negsuc 0) ≡ twice_each (negsuc 2147483647 ∷ negsuc 0 ∷ []) }
    ensures greatest { scaled_down 1 (pos 4294967294) ≡ pos 2147483647 }
    ensures past_greatest { scaled_down 1 (pos 4294967295) ≡ pos 2147483647 }
    ensures least { scaled_down 1 (negsuc 4294967296) ≡ negsuc 2147483647 }
    ensures past_least { scaled_down 1 (negsuc 4294967297) ≡ negsuc 2147483647 }
{}

/// The row is the one for the phase, rounded down: outputs 1, 2 and 3 lie three, two and one quarters
/// past a frame, and the two rows stand for none and for two.
pub fn rows_are_rounded_down()
    ensures frames { made_with two_taps by_four_thirds (levels (10 ∷ 20 ∷ 40 ∷ [])) 4 ≡ levels (10 ∷ 15 ∷ 30 ∷ 40 ∷ []) }
    ensures len { len (rate_of by_four_thirds) 3 ≡ 4 }
{}

/// Each channel goes through the same row.
pub fn channels_are_filtered_apart()
    ensures frames { made_with two_taps (doubling 2 2) two_sided 4 ≡ two_sided_doubled }
{}

/// Four taps are the frame before an output, the one under it and two after it. Before the first
/// frame and past the last there is silence.
pub fn four_taps_reach_around()
    ensures frames { made_with four_taps (doubling 1 4) tens 6 ≡ twice_each (pos 432 ∷ pos 321 ∷ pos 210 ∷ []) }
{}

/// A filter needs half its taps ahead: three frames for the first two outputs by four taps, and 33 by 64.
pub fn half_the_taps_lie_ahead()
    ensures rate { rate_of (doubling 1 4) ≡ record { src = 24000; dst = 48000; lookahead = 2 } }
    ensures need { need (rate_of (doubling 1 4)) 2 ≡ 3 }
    ensures more { need (rate_of (doubling 1 4)) 3 ≡ 4 }
    ensures many { need (rate_of (doubling 8 64)) 1 ≡ 33 }
    ensures none { can (rate_of (doubling 1 4)) 2 ≡ 0 }
    ensures can { can (rate_of (doubling 1 4)) 3 ≡ 2 }
    ensures len { len (rate_of (doubling 1 4)) 3 ≡ 6 }
{}

/// A filter eats frames before it can give any: the first two of three.
pub fn a_filter_eats_ahead()
    ensures eaten { (first_feed_by four_taps (doubling 1 4) (levels (1 ∷ 10 ∷ [])) 6).eaten ≡ 2 }
    ensures none { (first_feed_by four_taps (doubling 1 4) (levels (1 ∷ 10 ∷ [])) 6).given ≡ 0 }
    ensures given { (first_feed_by four_taps (doubling 1 4) tens 6).given ≡ 2 }
    ensures frames { (first_feed_by four_taps (doubling 1 4) tens 6).frames ≡ levels (432 ∷ 432 ∷ []) }
    ensures wanted { (first_feed_by four_taps (doubling 1 4) (levels (1 ∷ 10 ∷ 100 ∷ 0 ∷ [])) 1).eaten ≡ 3 }
{}

/// The first filter for exactly these rates is taken, wherever it stands, and else the first one for
/// any. One for the way back isn't taken, nor one for one of the rates.
pub fn filters_by_their_rates()
    ensures pair { filter_for by_rates 24000 48000 ≡ Some 2 }
    ensures back { filter_for by_rates 48000 24000 ≡ Some 0 }
    ensures any { filter_for by_rates 44100 48000 ≡ Some 1 }
    ensures only_any { filter_for two_taps 24000 48000 ≡ Some 0 }
    ensures way { filter_for only_back 24000 48000 ≡ None }
    ensures one_rate { filter_for only_back 48000 44100 ≡ None }
    ensures none { filter_for no_filters 24000 48000 ≡ None }
{}

/// From quality 2 on the filter is taken, with its place and its taps; where none is for the rates a
/// line is drawn, and below 2 always another way is taken. Equal rates need none of them.
pub fn qualities_among_filters()
    ensures hold { (doubling_plan by_rates 0).stages ≡ stages_after (hold_from 24000) }
    ensures linear { (doubling_plan by_rates 1).stages ≡ stages_after (line_from 24000) }
    ensures two { (doubling_plan by_rates 2).stages ≡ stages_after (Poly 24000 48000 1 2 4) }
    ensures three { (doubling_plan by_rates 3).stages ≡ stages_after (Poly 24000 48000 1 2 4) }
    ensures four { (doubling_plan by_rates 4).stages ≡ stages_after (Poly 24000 48000 1 2 4) }
    ensures line { (doubling_plan only_back 4).stages ≡ stages_after (line_from 24000) }
    ensures same { (plan_play by_rates 4 usual_settings usual_settings).stages
        ≡ Volume Two ∷ Depth 16 2 ∷ [] }
{}

/// A device's plans take the filters of its run.
pub fn plans_of_a_device_with_filters()
    ensures plan { filtered_plan 2 ≡ plan_of One One (doubling 1 2 ∷ Volume One ∷ []) }
    ensures rate { play_rate_between filtered_device filtered_settings ≡ half_rate }
    ensures low { (filtered_plan 1).stages ≡ line_from 24000 ∷ Volume One ∷ [] }
{}

/// A filter rounds to the nearest of 32 bits, and the depth after it rounds down: 20, 9, -13, -24,
/// -18 and -6 quarters of 65536 become 5, 2, -4, -6, -5 and -2 of 16 bits on both sides.
pub fn plan_triples_the_rate()
    ensures stages { tripling_plan.stages ≡ stages_after tripling }
    ensures frames { outs tripling_plan three_rows unity high_five_and_six 0 6 ≡ five_and_six_played }
{}
