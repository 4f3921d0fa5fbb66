//! A number, or a flag, for each slot.

ghost use Rattle.std.specs.Prelude.{◌≡◌, IfSome, Some, List, Bool, All, length, map};
ghost use Rattle.pcm_oss.specs.declared.event.TheConstants.{SLOTS};
ghost use Rattle.pcm_state.specs.OpeningRows.{flag, IsWord};

use crate::codes::{flag, word};
use pcm_oss::SLOTS;

/// Puts the numbers of the slots.
pub(crate) fn put_words(words: &[u32], out: &mut [u64])
    requires { length out.old ≡ length words.now }
    ensures put { out.new ≡ words.now }
    ensures fits { All IsWord words.now }
{
    for slot in 0..words.len() {
        let word = words[slot];
        out[slot] = u64::from(word);
    }
}

/// Puts the flags of the slots.
pub(crate) fn put_flags(flags: &[bool], out: &mut [u64])
    requires { length out.old ≡ length flags.now }
    ensures { out.new ≡ map flag flags.now }
{
    for slot in 0..flags.len() {
        out[slot] = u64::from(flags[slot]);
    }
}

/// The numbers of the slots, if each has 32 bits.
pub(crate) fn words(numbers: &[u64]) -> Option<[u32; SLOTS]>
    requires { length numbers.now ≡ SLOTS }
    ensures same { IfSome result (λ words. words ≡ numbers.now) }
    ensures fits { IfSome result (All IsWord) }
    ensures some { All IsWord numbers.now → result ≡ Some numbers.now }
{
    let mut words = [0; SLOTS];
    for slot in 0..SLOTS {
        words[slot] = word(numbers[slot])?;
    }
    tell_bits(&words);
    Some(words)
}

// Tells that each number has 32 bits, as its type keeps it. Nothing of this is left in the program.
fn tell_bits(words: &[u32])
    ensures { All IsWord words.now }
{
    for word in words {
        let _value = *word;
    }
}

/// The flags that the numbers of the slots are.
pub(crate) fn flags(numbers: &[u64]) -> Option<[bool; SLOTS]>
    requires { length numbers.now ≡ SLOTS }
    ensures same { IfSome result (λ flags. map flag flags ≡ numbers.now) }
    ensures some { (flags : List Bool) → map flag flags ≡ numbers.now → result ≡ Some flags }
{
    let mut flags = [false; SLOTS];
    for slot in 0..SLOTS {
        flags[slot] = flag(numbers[slot])?;
    }
    Some(flags)
}
