//! What holds of all changes of rate: the function here has no work, and its contract is the law.

ghost use Rattle.std.specs.Prelude.{◌≡◌, ◌<◌, ◌≤◌, ℕ};
ghost use Rattle.pcm_rate.specs.declared.rate.Rate.{Rate};
ghost use Rattle.pcm_rate.specs.Rates.{unchanged, need, can, len, IsGreatest, IsPeriod, IsPeriodic, IsReduced, HasSameCounts};

/// The counts of a change of rate, for every two rates and every lookahead.
pub fn counts_are_exact()
    ensures greatest { (rate : Rate) → 0 < rate.src → 0 < rate.dst → IsGreatest rate }
    ensures within { (rate : Rate) (n : ℕ) → 0 < rate.src → can rate n ≤ len rate n }
    ensures periodic { (rate : Rate) (s d : ℕ) → IsPeriod rate s d → IsPeriodic rate s d }
    ensures reduced { (rate low : Rate) → IsReduced rate low → HasSameCounts rate low }
    ensures unchanged { (c : ℕ) → need unchanged c ≡ c }
{}
