//! The lines of a text.

ghost use Rattle.std.specs.Prelude.{◌≡◌, ◌∷◌, ◌<◌, [], IfSome, MatchOption, length};
ghost use Rattle.pcm_script.specs.Words.{lines_of};

use memchr::memchr;

// The first line of a text, and the text after its line feed, if it has one.
pub(crate) fn first_line(text: &[u8]) -> (&[u8], Option<&[u8]>)
    ensures lines { MatchOption result.1
        (lines_of text.now ≡ result.0.now ∷ [])
        (λ behind. lines_of text.now ≡ result.0.now ∷ lines_of behind.now) }
    ensures shorter { IfSome result.1 (λ behind. length behind.now < length text.now) }
{
    match memchr(b'\n', text) {
        Some(end) => (&text[..end], Some(&text[end + 1..])),
        None => (text, None),
    }
}
