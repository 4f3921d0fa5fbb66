//! What the bodies of waves become at other settings: their frames, and the bytes that spell these.
#![tactic(auto, unfolding(crate::proofs::Computing::row))]

ghost use Rattle.std.specs.Prelude.{◌≡◌, ◌∷◌, []};
ghost use Rattle.pcm_convert.specs.Conversions.{all_converted, converted_body, converted_frames, block_after};
ghost use Rattle.pcm_desk.specs.Usual.{usual_settings};
ghost use Rattle.pcm_rows.specs.Calls.{little_endian, stereo_bytes};
ghost use Rattle.pcm_rows.specs.ClientFormats.{three_bytes, three_numbers, two_of_24_bits};
ghost use Rattle.pcm_rows.specs.ClientRates.{half_settings, step_body, step_doubled};
ghost use Rattle.pcm_rows.specs.ConversionRows.{stereo_at, mono_at, unsigned_at, wide_at, five_body, cut_body, hundredth_body};
ghost use Rattle.pcm_rows.specs.Stages.{in_both};

/// At twice the rate a line goes from each frame to the next, and from the last one to silence.
pub fn conversion_doubles_the_rate()
    ensures count { converted_frames half_settings usual_settings step_body ≡ 4 }
    ensures frames { all_converted half_settings usual_settings step_body ≡ in_both (0 ∷ 50 ∷ 100 ∷ 50 ∷ []) }
    ensures body { converted_body half_settings usual_settings step_body ≡ step_doubled }
{}

/// At half the rate each second frame is left.
pub fn conversion_halves_the_rate()
    ensures { converted_body (mono_at 48000) (mono_at 24000) five_body ≡ little_endian (1 ∷ 3 ∷ 5 ∷ []) }
{}

/// At one rate each sample gets other bits: unsigned bytes grow to 16 signed ones, and 24 bits are rounded down.
pub fn conversion_changes_the_format()
    ensures wider { converted_body (unsigned_at 8000) (mono_at 8000) three_bytes ≡ little_endian three_numbers }
    ensures fewer { converted_body (wide_at 8000) (mono_at 8000) two_of_24_bits ≡ 1 ∷ 0 ∷ 0xff ∷ 0xff ∷ [] }
{}

/// One channel goes to both sides, and both sides become their mean.
pub fn conversion_changes_the_channels()
    ensures more { converted_body (mono_at 8000) (stereo_at 8000) (100 ∷ 0 ∷ []) ≡ stereo_bytes (100 ∷ []) }
    ensures fewer { converted_body (stereo_at 8000) (mono_at 8000) (100 ∷ 0 ∷ 200 ∷ 0 ∷ []) ≡ 150 ∷ 0 ∷ [] }
{}

/// A part of a frame at the end is not heard, and a body without a frame becomes an empty one.
pub fn conversion_leaves_a_part_of_a_frame()
    ensures part { converted_body half_settings usual_settings cut_body ≡ step_doubled }
    ensures less { converted_body half_settings usual_settings (100 ∷ 0 ∷ 100 ∷ []) ≡ [] }
    ensures none { converted_body half_settings usual_settings [] ≡ [] }
{}

/// A hundredth of a second at 44100 is one at 48000.
pub fn conversion_lasts_as_long()
    ensures { converted_frames (stereo_at 44100) (stereo_at 48000) hundredth_body ≡ 480 }
{}

/// A block has only the bytes that are left after those given.
pub fn block_after_three_frames()
    ensures last { block_after half_settings usual_settings step_body 3 ≡ stereo_bytes (50 ∷ []) }
    ensures none { block_after half_settings usual_settings step_body 4 ≡ [] }
{}
