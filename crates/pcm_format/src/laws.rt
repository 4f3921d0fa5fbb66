//! What holds of all formats and layouts: each function here has no work, and its contract is a law.

ghost use Rattle.std.specs.Prelude.{◌≡◌, ℕ, ℤ, pos, List, length, Some};
ghost use Rattle.pcm_num.specs.Limit.{FitsBits};
ghost use Rattle.pcm_format.specs.declared.format.Format.{Format};
ghost use Rattle.pcm_format.specs.declared.layout.Layout.{Layout};
ghost use Rattle.pcm_format.specs.Formats.{bits_of, code_of, name_of, format_named, format_with_code};
ghost use Rattle.pcm_format.specs.Layouts.{channels_of, layout_of, positions_of};
ghost use Rattle.pcm_format.specs.Samples.{IsSample, sample_value, spelled, loaded, stored, at_depth};

/// A format is the one that its name and its code stand for, and a layout the one that its channels stand for.
pub fn tables_are_one_to_one()
    ensures names { (f : Format) → format_named (name_of f) ≡ Some f }
    ensures codes { (f : Format) → format_with_code (code_of f) ≡ Some f }
    ensures channels { (layout : Layout) → layout_of (channels_of layout) ≡ Some layout }
    ensures positions { (layout : Layout) → length (positions_of layout) ≡ channels_of layout }
{}

/// A value of a format's range has one spelling, and a spelling has one value of the range.
pub fn spelling_is_unique()
    ensures value { (f : Format) (value : ℤ) → FitsBits (bits_of f) value
        → sample_value f (spelled f value) ≡ value }
    ensures bytes { (f : Format) (bytes : List ℕ) → IsSample f bytes
        → spelled f (sample_value f bytes) ≡ bytes }
    ensures range { (f : Format) (bytes : List ℕ) → IsSample f bytes
        → FitsBits (bits_of f) (sample_value f bytes) }
    ensures sample { (f : Format) (value : ℤ) → IsSample f (spelled f value) }
{}

/// What is loaded and stored again is the same bytes, and a 32-bit number keeps the range at each depth.
pub fn load_loses_nothing()
    ensures depth { (f : Format) (bytes : List ℕ)
        → at_depth (bits_of f) (loaded f bytes) ≡ sample_value f bytes }
    ensures again { (f : Format) (bytes : List ℕ) → IsSample f bytes
        → stored f (loaded f bytes) ≡ bytes }
    ensures range { (f : Format) (bytes : List ℕ) → IsSample f bytes
        → FitsBits 32 (loaded f bytes) }
    ensures fits { (f : Format) (x : ℤ) → FitsBits 32 x
        → FitsBits (bits_of f) (at_depth (bits_of f) x) }
{}

/// Silence is 0 at each depth and in each format.
pub fn silence_is_zero()
    ensures depth { (bits : ℕ) → at_depth bits (pos 0) ≡ pos 0 }
    ensures value { (f : Format) → sample_value f (spelled f (pos 0)) ≡ pos 0 }
    ensures loaded { (f : Format) → loaded f (stored f (pos 0)) ≡ pos 0 }
{}
