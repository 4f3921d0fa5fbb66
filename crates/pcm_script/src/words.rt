//! The words of a line.

ghost use Rattle.std.specs.Prelude.{◌≡◌, ◌<◌, ◌∷◌, ◌++◌, [], IfSome, MatchOption, filter, length, take};
ghost use Rattle.std.specs.List.{slice_split};
ghost use Rattle.pcm_script.specs.declared.words.TheConstants.{KEPT};
ghost use Rattle.pcm_script.specs.Words.{begins_comment, is_blank, is_word, lent, without_return, words_of};

use arrayvec::ArrayVec;
use memchr::memchr2;

/// How many words of a line are kept. Each command refuses that many, as it does more, so a line needs no memory.
pub const KEPT: usize = 8;

/// The words of a line that are kept.
pub type Words<'a> = ArrayVec<&'a [u8], KEPT>;

/// The first words of a line, up to its comment.
pub fn first_words<'a>(line: &'a [u8]) -> Words<'a>
    ensures { lent result.items ≡ take KEPT (words_of line.now) }
{
    let mut words = Words::new();
    let mut rest = Some(without_return(line));
    while let Some(text) = rest {
        let (part, behind) = first_part(text);
        if begins_comment(part) {
            return words;
        }
        keep(&mut words, part);
        rest = behind;
    }
    words
}

// The part of a text before its first blank, and the text after that, if it has one.
fn first_part(text: &[u8]) -> (&[u8], Option<&[u8]>)
    ensures parts { MatchOption result.1
        (slice_split is_blank text.now ≡ result.0.now ∷ [])
        (λ behind. slice_split is_blank text.now ≡ result.0.now ∷ slice_split is_blank behind.now) }
    ensures shorter { IfSome result.1 (λ behind. length behind.now < length text.now) }
{
    match memchr2(b' ', b'\t', text) {
        Some(end) => (&text[..end], Some(&text[end + 1..])),
        None => (text, None),
    }
}

// Keeps a part of a line, if it is a word and there is room.
fn keep<'a>(words: &mut Words<'a>, part: &'a [u8])
    ensures { lent words.new.items ≡ take KEPT (lent words.old.items ++ filter is_word (part.now ∷ [])) }
{
    if !words.is_full() && !part.is_empty() {
        words.push(part);
    }
}

fn begins_comment(part: &[u8]) -> bool
    ensures { result ≡ begins_comment part.now }
{
    matches!(part, [b'#', ..])
}

// A line without the carriage return at its end, if it has one.
fn without_return(line: &[u8]) -> &[u8]
    ensures { result.now ≡ without_return line.now }
{
    line.strip_suffix(b"\r").unwrap_or(line)
}
