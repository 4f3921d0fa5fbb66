//! What holds of all rows and bytes: each function here has no work, and its contract is a law.

ghost use Rattle.std.specs.Prelude.{◌≡◌, ◌*◌, ℕ, ℤ, Option, List, length};
ghost use Rattle.pcm_group.specs.declared.sync_groups.Groups.{Groups};
ghost use Rattle.pcm_mixdev.specs.Mixers.{Levels};
ghost use Rattle.pcm_desk.specs.declared.device.Held.{Held};
ghost use Rattle.pcm_desk.specs.declared.map_book.MapBook.{MapBook};
ghost use Rattle.pcm_desk.specs.declared.opening.Opening.{Opening};
ghost use Rattle.pcm_desk.specs.declared.play_book.PlayBook.{PlayBook};
ghost use Rattle.pcm_desk.specs.declared.record_book.RecordBook.{RecordBook};
ghost use Rattle.pcm_state.specs.GroupRows.{groups_row, FitsGroups};
ghost use Rattle.pcm_state.specs.HeldRows.{held_row};
ghost use Rattle.pcm_state.specs.MapRows.{map_book_row};
ghost use Rattle.pcm_state.specs.MixerRows.{mixer_row, FitsMixer};
ghost use Rattle.pcm_state.specs.Numbers.{spelled_numbers};
ghost use Rattle.pcm_state.specs.OpeningRows.{opening_row};
ghost use Rattle.pcm_state.specs.PlayRows.{play_book_row};
ghost use Rattle.pcm_state.specs.RecordRows.{record_book_row};
ghost use Rattle.pcm_state.specs.Samples.{sample_bytes};

/// Numbers and samples are known by their bytes.
pub fn bytes_tell_what_they_spell()
    ensures numbers { (one other : List ℕ) → spelled_numbers one ≡ spelled_numbers other → one ≡ other }
    ensures number_bytes { (numbers : List ℕ) → length (spelled_numbers numbers) ≡ 8 * length numbers }
    ensures samples { (one other : List ℤ) → sample_bytes one ≡ sample_bytes other → one ≡ other }
    ensures sample_bytes { (samples : List ℤ) → length (sample_bytes samples) ≡ 4 * length samples }
{}

/// What has a row is known by it.
pub fn rows_tell_what_has_them()
    ensures openings { (one other : Opening) → opening_row one ≡ opening_row other → one ≡ other }
    ensures play { (one other : PlayBook) → play_book_row one ≡ play_book_row other → one ≡ other }
    ensures recording { (one other : RecordBook) → record_book_row one ≡ record_book_row other → one ≡ other }
    ensures mapped { (one other : MapBook) → map_book_row one ≡ map_book_row other → one ≡ other }
    ensures mixers { (one other : Levels) → FitsMixer one → FitsMixer other
        → mixer_row one ≡ mixer_row other → one ≡ other }
    ensures groups { (one other : Groups) → FitsGroups one → FitsGroups other
        → groups_row one ≡ groups_row other → one ≡ other }
    ensures held { (one other : List (Option Held)) → held_row one ≡ held_row other → one ≡ other }
{}
