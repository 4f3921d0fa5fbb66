//! Stages that convert frames, each over a stream that is silent past its end.
#![tactic(auto, unfolding(crate::proofs::Computing::row))]

ghost use Rattle.std.specs.Prelude.{◌≡◌, ℤ, pos, negsuc, [], ◌∷◌};
ghost use Rattle.pcm_format.specs.declared.layout.Layout.TheVariants.{Two, Six};
ghost use Rattle.pcm_feeder.specs.declared.stage.Spec.TheVariants.{Matrix, Volume, Depth};
ghost use Rattle.pcm_feeder.specs.Layouts.{unity};
ghost use Rattle.pcm_rate.specs.Rates.{need, can, len};
ghost use Rattle.pcm_feeder.specs.Stages.{rate_of};
ghost use Rattle.pcm_rows.specs.FilterRows.{doubling};
ghost use Rattle.pcm_rows.specs.Stages.{mono, levels, twice_each, half_right, two_taps, made_by, made_of_one, made_with, line_from, hold_from, up_and_down, up_and_down_drawn, rise, rise_filtered, fine_steps, fine_steps_cut, six_samples, first_feed};

/// Twice the rate by linear interpolation: between 0, 100 and the silence after them.
pub fn linear_doubles()
    ensures frames { made_by (line_from 24000) (levels (0 ∷ 100 ∷ [])) 4 ≡ levels (0 ∷ 50 ∷ 100 ∷ 50 ∷ []) }
    ensures len { len (rate_of (line_from 24000)) 2 ≡ 4 }
{}

/// From 44100 to 48000 by lines, rounded down also below zero: output k lies between the frames
/// i and i + 1, where k * 44100 is i * 48000 and a rest. Outputs 1 to 4 have i 0, 1, 2 and 3 and the
/// rests 44100, 40200, 36300 and 32400.
pub fn linear_from_44100()
    ensures frames { made_by (line_from 44100) up_and_down 5 ≡ up_and_down_drawn }
    ensures len { len (rate_of (line_from 44100)) 4 ≡ 5 }
    ensures can { can (rate_of (line_from 44100)) 4 ≡ 4 }
    ensures need { need (rate_of (line_from 44100)) 4 ≡ 4 }
    ensures more { need (rate_of (line_from 44100)) 5 ≡ 5 }
{}

/// Half the rate by lines leaves every other frame out, and an odd last one is given.
pub fn linear_halves()
    ensures frames { made_by (line_from 96000) (levels (1 ∷ 2 ∷ 3 ∷ 4 ∷ 5 ∷ [])) 3 ≡ levels (1 ∷ 3 ∷ 5 ∷ []) }
    ensures len { len (rate_of (line_from 96000)) 5 ≡ 3 }
    ensures can { can (rate_of (line_from 96000)) 5 ≡ 2 }
{}

/// Twice the rate by a hold: each frame twice.
pub fn hold_doubles()
    ensures frames { (a b : ℤ) → made_by (hold_from 24000) (mono (a ∷ b ∷ [])) 4 ≡ twice_each (a ∷ b ∷ []) }
{}

/// Twice the rate by a filter of two taps: the rows are one, and the mean of two frames, rounded to the nearest.
pub fn two_taps_double()
    ensures frames { made_with two_taps (doubling 1 2) rise 4 ≡ rise_filtered }
{}

/// A line needs the frame ahead: two input frames allow two outputs of the four that they last for.
pub fn a_line_waits_for_its_end()
    ensures can { can (rate_of (line_from 24000)) 2 ≡ 2 }
    ensures need { need (rate_of (line_from 24000)) 3 ≡ 3 }
    ensures given { (first_feed (line_from 24000) (levels (0 ∷ 100 ∷ [])) 4).given ≡ 2 }
    ensures frames { (first_feed (line_from 24000) (levels (0 ∷ 100 ∷ [])) 4).frames ≡ levels (0 ∷ 50 ∷ []) }
    ensures alone { (first_feed (line_from 24000) (levels (100 ∷ [])) 4).given ≡ 0 }
{}

/// Depth rounds down, also below zero: 65535 and -65536 are 0 and -1 at 16 bits, and -1 is -1.
pub fn depth_rounds_down()
    ensures frames { made_by (Depth 16 1) fine_steps 3 ≡ fine_steps_cut }
{}

/// The right side at half the gain, rounded down.
pub fn volume_halves_the_right_side()
    ensures frames { made_of_one (Volume Two) half_right (pos 100 ∷ negsuc 2 ∷ []) ≡ (pos 100 ∷ negsuc 1 ∷ []) ∷ [] }
{}

/// Six channels in two: the centre and the back go in with their weights, the low frequency effects don't.
pub fn six_channels_fold_to_two()
    ensures frames { made_of_one (Matrix Six Two) unity six_samples ≡ (pos 20502241 ∷ pos 27009500 ∷ []) ∷ [] }
{}
