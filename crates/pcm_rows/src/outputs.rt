//! What calls leave: device files and converted waves, with their headers.
#![tactic(auto, unfolding(crate::proofs::Computing::row))]

ghost use Rattle.std.specs.Prelude.{◌≡◌, ◌∷◌, ◌++◌, [], codes};
ghost use Rattle.pcm_desk.specs.Usual.{usual_settings};
ghost use Rattle.pcm_wave.specs.Headers.{header_of};
ghost use Rattle.pcm_verdict.specs.Outputs.{convert_line, converted_file, device_file, replies_printed};
ghost use Rattle.pcm_rows.specs.ClientRates.{step_doubled};
ghost use Rattle.pcm_rows.specs.ConversionRows.{unsigned_at};
ghost use Rattle.pcm_rows.specs.Verdicts.{as_unsigned, silent_inputs, silent_wave, step_conversion};

/// A device file that is a wave: its header states the frames of all interrupts.
pub fn device_file_behind_a_header()
    ensures file { device_file silent_inputs ≡ silent_wave }
    ensures lines { replies_printed silent_inputs ≡ codes "1: ok 4\n2: ok 4\n" }
{}

/// A wave at twice the rate, and one of a single byte, which has a byte of padding after it.
pub fn converted_files()
    ensures doubled { converted_file step_conversion ≡ header_of usual_settings 4 ++ step_doubled }
    ensures line { convert_line step_conversion ≡ codes "frames 4\n" }
    ensures padded { converted_file (as_unsigned (0 ∷ 0 ∷ [])) ≡ header_of (unsigned_at 8000) 1 ++ 0x80 ∷ 0 ∷ [] }
    ensures empty { converted_file (as_unsigned (1 ∷ [])) ≡ header_of (unsigned_at 8000) 0 }
{}
