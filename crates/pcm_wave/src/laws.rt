//! What holds of all waves: each function here has no work, and its contract is a law.

ghost use Rattle.std.specs.Prelude.{◌≡◌, ◌≤◌, ℕ, List, length, Ok};
ghost use Rattle.pcm_format.specs.declared.settings.Settings.{Settings};
ghost use Rattle.pcm_format.specs.declared.settings.TheConstants.{RATE_LEAST, RATE_MOST};
ghost use Rattle.pcm_wave.specs.declared.wave.Wave.{Wave};
ghost use Rattle.pcm_wave.specs.Headers.{IsWaveFormat, header_of};
ghost use Rattle.pcm_wave.specs.Laws.{IsReadBack, BodyStands};
ghost use Rattle.pcm_wave.specs.Waves.{wave_end, wave_of};

/// What is written is read back: the same settings and the same body, whatever bytes follow.
pub fn what_is_written_is_read_back()
    ensures wave { (settings : Settings) (frames : ℕ) (body : List ℕ) → IsReadBack settings frames body }
    ensures body { (settings : Settings) (frames : ℕ) (body : List ℕ) → BodyStands settings frames body }
    ensures length { (settings : Settings) (frames : ℕ) → length (header_of settings frames) ≡ 44 }
{}

/// A wave that is read has a rate within the limits and a format that is written too, and its body is within the bytes.
pub fn waves_are_within_the_limits()
    ensures body { (bytes : List ℕ) (wave : Wave) → wave_of bytes ≡ Ok wave → wave_end wave ≤ length bytes }
    ensures least { (bytes : List ℕ) (wave : Wave) → wave_of bytes ≡ Ok wave
        → RATE_LEAST ≤ wave.rate }
    ensures most { (bytes : List ℕ) (wave : Wave) → wave_of bytes ≡ Ok wave
        → wave.rate ≤ RATE_MOST }
    ensures format { (bytes : List ℕ) (wave : Wave) → wave_of bytes ≡ Ok wave
        → IsWaveFormat wave.format }
{}
