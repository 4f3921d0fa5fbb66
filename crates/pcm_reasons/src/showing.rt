//! Bytes as a terminal can show them.

use std::alloc::{AllocError, Global};

// How many bytes are shown of a line, and of a word, at most.
const SHOWN: usize = 80;

const SHOWN_OF_A_WORD: usize = 40;

const DIGITS: [char; 16] = [
    '0', '1', '2', '3', '4', '5', '6', '7', '8', '9', 'a', 'b', 'c', 'd', 'e', 'f',
];

/// A line as it can be shown: what isn't a tab or a plain character of ASCII is written by its number, and a long line is cut.
pub fn shown(alloc: Global, line: &[u8]) -> Result<String, AllocError> {
    let mut text = String::new(alloc);
    show(&mut text, line, SHOWN)?;
    if line.len() > SHOWN {
        text.push_str(" ..")?;
    }
    Ok(text)
}

/// A word in quotes, shown as a line is, and cut earlier.
pub fn quoted(alloc: Global, word: &[u8]) -> Result<String, AllocError> {
    let mut text = String::new(alloc);
    text.push('"')?;
    show(&mut text, word, SHOWN_OF_A_WORD)?;
    text.push('"')?;
    if word.len() > SHOWN_OF_A_WORD {
        text.push_str(" ..")?;
    }
    Ok(text)
}

/// Shows the first bytes after a text.
fn show(text: &mut String, bytes: &[u8], most: usize) -> Result<(), AllocError> {
    for byte in bytes.iter().take(most) {
        show_byte(text, *byte)?;
    }
    Ok(())
}

/// Puts a word after those that a list has.
pub(crate) fn list(text: &mut String, word: &[u8]) -> Result<(), AllocError> {
    if !text.as_str().is_empty() {
        text.push_str(", ")?;
    }
    show(text, word, SHOWN_OF_A_WORD)
}

fn show_byte(text: &mut String, byte: u8) -> Result<(), AllocError> {
    if byte == b'\t' || (b' ' <= byte && byte <= b'~') {
        return text.push(char::from(byte));
    }
    text.push_str("\\x")?;
    text.push(DIGITS[usize::from(byte / 16)])?;
    text.push(DIGITS[usize::from(byte % 16)])
}
