//! The bits of a trigger, one a way.

ghost use Rattle.std.specs.Prelude.{◌≡◌};
ghost use Rattle.pcm_desk.specs.Triggers.{has_other_bits};

/// The bit of a trigger that a channel which plays has (`PCM_ENABLE_OUTPUT`).
pub const PLAY_BIT: u32 = 2;

/// The bit of a trigger that a channel which records has (`PCM_ENABLE_INPUT`).
pub const RECORD_BIT: u32 = 1;

/// Whether a number has a bit of no way, which every channel refuses.
pub fn has_other_bits(bits: u32) -> bool
    ensures { result ≡ has_other_bits bits }
{
    bits > PLAY_BIT + RECORD_BIT
}
