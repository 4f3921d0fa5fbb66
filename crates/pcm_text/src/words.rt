//! Words, each written after a space.

ghost use Rattle.std.specs.Prelude.{◌≡◌, ◌∷◌, ◌++◌, OnOk};
ghost use Rattle.std.specs.Fmt.{decimal};
ghost use Rattle.pcm_report.specs.Lines.{bytes_text};

use std::alloc::AllocError;

// Writes a word.
pub(crate) fn push_word(text: &mut Vec<u8>, word: &[u8]) -> Result<(), AllocError>
    ensures { OnOk result (text.new.items ≡ text.old.items ++ 32 ∷ word.now) }
{
    text.push(b' ')?;
    text.extend_from_slice(word)
}

// Writes a number, in decimal and without leading zeros.
pub(crate) fn push_number(text: &mut Vec<u8>, number: u32) -> Result<(), AllocError>
    ensures { OnOk result (text.new.items ≡ text.old.items ++ 32 ∷ decimal number) }
{
    push_word(text, itoa::Buffer::new().format(number).as_bytes())
}

// Writes bytes in hexadecimal, or a dash for none.
pub(crate) fn push_bytes(text: &mut Vec<u8>, bytes: &[u8]) -> Result<(), AllocError>
    ensures { OnOk result (text.new.items ≡ text.old.items ++ 32 ∷ bytes_text bytes.now) }
{
    if bytes.is_empty() {
        return push_word(text, b"-");
    }
    let digits = hex::encode(*text.allocator(), bytes)?;
    push_word(text, digits.as_bytes())
}
