//! What is kept of a state, as rows of numbers and as bytes.
#![tactic(auto)]

ghost use Rattle.std.specs.Prelude.{◌≡◌, [], ◌∷◌, pos, neg_ℤ, replicate};
ghost use Rattle.pcm_state.specs.HeldRows.{held_row};
ghost use Rattle.pcm_state.specs.Numbers.{spelled_numbers};
ghost use Rattle.pcm_state.specs.PlayRows.{play_book_row};
ghost use Rattle.pcm_state.specs.Samples.{sample_bytes};
ghost use Rattle.pcm_rows.specs.StateRows.{held_by_three, played_to_its_end};

/// A number is eight bytes and a sample four, the lowest first. A sample below 0 is an odd number.
pub fn numbers_and_samples_as_bytes()
    ensures number { spelled_numbers (258 ∷ []) ≡ 2 ∷ 1 ∷ replicate 6 0 }
    ensures most { spelled_numbers (18446744073709551615 ∷ []) ≡ replicate 8 255 }
    ensures samples { sample_bytes (pos 1 ∷ neg_ℤ (pos 1) ∷ []) ≡ 2 ∷ 0 ∷ 0 ∷ 0 ∷ 1 ∷ 0 ∷ 0 ∷ 0 ∷ [] }
    ensures least { sample_bytes (neg_ℤ (pos 2147483648) ∷ []) ≡ replicate 4 255 }
{}

/// A descriptor that is shut is 0. The numbers of a book are those of its opening and then its counts.
pub fn rows_of_descriptors_and_books()
    ensures held { held_row held_by_three ≡ 0 ∷ 8 ∷ 48 ∷ [] }
    ensures book { play_book_row played_to_its_end
        ≡ 16 ∷ 44100 ∷ 2 ∷ 4 ∷ 12 ∷ 1 ∷ 20 ∷ 25700 ∷ 5 ∷ 400 ∷ 90 ∷ 98 ∷ 4096 ∷ 1 ∷ 2000 ∷ [] }
{}
