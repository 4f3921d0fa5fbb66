//! What holds of all conversions: the function here has no work, and its contract is the law.

ghost use Rattle.std.specs.Prelude.{ℕ, List};
ghost use Rattle.pcm_format.specs.declared.settings.Settings.{Settings};
ghost use Rattle.pcm_convert.specs.Laws.{BlocksAreFrames, BlocksAreWhole, BlocksJoin, HasAllFrames};

/// Each block is the bytes of the next frames, and joined the blocks are the whole converted body.
pub fn blocks_make_the_body()
    ensures length { (source target : Settings) (bytes : List ℕ) → HasAllFrames source target bytes }
    ensures frames { (source target : Settings) (bytes : List ℕ) → BlocksAreFrames source target bytes }
    ensures joined { (source target : Settings) (bytes : List ℕ) → BlocksJoin source target bytes }
    ensures whole { (source target : Settings) (bytes : List ℕ) → BlocksAreWhole source target bytes }
{}
