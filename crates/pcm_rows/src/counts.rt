//! The counts of a book, which are in order or not.
#![tactic(auto)]

ghost use Rattle.pcm_rate.specs.Rates.{unchanged};
ghost use Rattle.pcm_desk.specs.PlaySafe.{PlayIsSafe};
ghost use Rattle.pcm_rows.specs.Counts.{eager_book, plain_book};

/// At the rate of the mix, frames are eaten as they are given: two for two are safe, nine aren't.
pub fn nothing_is_eaten_early()
    ensures safe { PlayIsSafe unchanged plain_book }
    ensures refused { PlayIsSafe unchanged eager_book → ⊥ }
{}
