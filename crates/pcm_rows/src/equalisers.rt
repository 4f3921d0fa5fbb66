//! Sections of an equaliser: what they make of frames, in one feed and in two, and where a plan has them.
#![tactic(auto, unfolding(crate::proofs::Computing::row))]

ghost use Rattle.std.specs.Prelude.{◌≡◌, ◌∷◌, ◌++◌, [], pos};
ghost use Rattle.pcm_feeder.specs.declared.stage.Spec.TheVariants.{Depth, Eq, Volume};
ghost use Rattle.pcm_format.specs.declared.layout.Layout.TheVariants.{Two};
ghost use Rattle.pcm_plan.specs.Plans.{plan_play, plan_record};
ghost use Rattle.pcm_desk.specs.Usual.{usual_settings};
ghost use Rattle.pcm_rows.specs.Calls.{played, printed, ring_of_silence};
ghost use Rattle.pcm_rows.specs.EqualiserRows.{adding_up, halving, ringing_then_pairs, loud_then_half, half_then_loud, by_one, by_two, sections_alone, fed_on, equalised, three_frames, three_heard, equalised_script, equalised_lines};
ghost use Rattle.pcm_rows.specs.Stages.{levels, mono};

/// A section whose output counts whole adds up: 1, 2 and 3 are 1, 3 and 6.
pub fn a_section_adds_up()
    ensures frames { by_one adding_up (levels (1 ∷ 2 ∷ 3 ∷ [])) 3 ≡ levels (1 ∷ 3 ∷ 6 ∷ []) }
    ensures device { played (equalised adding_up) (equalised_script (three_frames 1 2 3)) ≡ ring_of_silence ++ three_heard 1 3 6 }
    ensures lines { printed (equalised adding_up) (equalised_script (three_frames 1 2 3)) ≡ equalised_lines }
{}

/// A half is rounded up: 3 and silence are 3/2, then half of 2, and then half of 1.
pub fn a_section_rounds_to_the_nearest()
    ensures frames { by_one halving (levels (3 ∷ 0 ∷ 0 ∷ [])) 3 ≡ levels (2 ∷ 1 ∷ 1 ∷ []) }
    ensures device { played (equalised halving) (equalised_script (three_frames 3 0 0)) ≡ ring_of_silence ++ three_heard 2 1 1 }
{}

/// An impulse of 5 rings as 5, 3, 2, 1 and 1, and each of these with the one before it is 5, 8, 5, 3 and 2.
pub fn an_impulse_through_two_sections()
    ensures { by_two ringing_then_pairs (levels (5 ∷ 0 ∷ 0 ∷ 0 ∷ 0 ∷ [])) 5 ≡ levels (5 ∷ 8 ∷ 5 ∷ 3 ∷ 2 ∷ []) }
{}

/// The first section stops at the end of the range, and the second one has half of that.
pub fn a_limit_inside_of_the_first_section()
    ensures { by_two loud_then_half (mono (pos 2147483647 ∷ [])) 1 ≡ mono (pos 1073741824 ∷ []) }
{}

/// Half of 3 is 2, and twice that is 4. Twice 3 is 6, and half of that is 3.
pub fn sections_have_an_order()
    ensures half { by_two half_then_loud (levels (3 ∷ [])) 1 ≡ levels (4 ∷ []) }
    ensures loud { by_two loud_then_half (levels (3 ∷ [])) 1 ≡ levels (3 ∷ []) }
{}

/// Two feeds give what one gives.
pub fn a_feed_goes_on_from_the_last()
    ensures frames { (fed_on (sections_alone (adding_up ∷ [])) (levels (1 ∷ 2 ∷ [])) (levels (3 ∷ []))).frames ≡ levels (6 ∷ []) }
    ensures kept { (fed_on (sections_alone (adding_up ∷ [])) (levels (1 ∷ 2 ∷ [])) (levels (3 ∷ []))).kept.tail ≡ levels (2 ∷ 3 ∷ 3 ∷ 6 ∷ []) }
{}

/// The sections stand before the volume of a client that plays, and nowhere for one that records.
pub fn plans_with_sections()
    ensures play { (plan_play (sections_alone (adding_up ∷ halving ∷ [])) 1 usual_settings usual_settings).stages
        ≡ Eq 2 2 ∷ Volume Two ∷ Depth 16 2 ∷ [] }
    ensures record { (plan_record (sections_alone (adding_up ∷ [])) 1 usual_settings usual_settings).stages ≡ Depth 16 2 ∷ [] }
{}
