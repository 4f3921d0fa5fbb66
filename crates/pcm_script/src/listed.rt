//! Data files, and how one is found by its name.

ghost use Rattle.std.specs.Prelude.{◌≡◌, ◌<◌, IfSome, IsTrue, length, position};
ghost use Rattle.std.specs.Cmp.Lexicographic.{slice_cmp};
ghost use Rattle.std.specs.Ordering.{nat_cmp};
ghost use Rattle.std.proofs.Props.{props};
ghost use Rattle.pcm_script.specs.Commands.{is_file_named};
ghost use Rattle.pcm_script.specs.Listed.{AreRising, is_before};

use pcm_wave::DataFile;
use std::cmp::Ordering;

/// Data files, and whether their names are known to rise, each before the next in byte order. If so, a name is looked for by halves.
#[derive(Drop)]
pub(crate) struct Listed<'a> {
    pub all: &'a [DataFile],
    are_rising: bool,
    ghost rising: { IsTrue are_rising → AreRising all.now } by { Prim.hlevel props },
}

impl<'a> Listed<'a> {
    // These files. Whether their names rise is found out once.
    pub(crate) fn of(files: &'a [DataFile]) -> Listed<'a>
        ensures { result.all.now ≡ files.now }
    {
        Listed {
            all: files,
            are_rising: are_rising(files),
        }
    }

    // The place of the first file that a word names.
    pub(crate) fn place_named(&self, word: &[u8]) -> Option<usize>
        ensures value { result ≡ position (is_file_named word.now) self.now.all.now }
        ensures within { IfSome result (λ place. place < length self.now.all.now) }
    {
        if self.are_rising {
            return place_among(self.all, word);
        }
        self.all.iter().position(|file| is_file_named(file, word))
    }
}

// How a file's name stands to a word in byte order.
fn compared(file: &DataFile, word: &[u8]) -> Ordering
    ensures { result ≡ slice_cmp nat_cmp file.now.name word.now }
{
    file.name().as_bytes().cmp(word)
}

// Whether each name is before the next.
fn are_rising(files: &[DataFile]) -> bool
    ensures { IsTrue result → AreRising files.now }
{
    files.is_sorted_by(|one, next| is_before(one, next))
}

// Whether a file's name is before another's in byte order.
fn is_before(one: &DataFile, next: &DataFile) -> bool
    ensures { result ≡ is_before one.now next.now }
{
    compared(one, next.name().as_bytes()).is_lt()
}

// The place of the file that a word names, where names rise: it is looked for by halves.
fn place_among(files: &[DataFile], word: &[u8]) -> Option<usize>
    requires rising { AreRising files.now }
    ensures value { result ≡ position (is_file_named word.now) files.now }
    ensures within { IfSome result (λ place. place < length files.now) }
{
    files.binary_search_by(|file| compared(file, word)).ok()
}

// Whether a word names a file.
fn is_file_named(file: &DataFile, word: &[u8]) -> bool
    ensures { result ≡ is_file_named word.now file.now }
{
    file.name().as_bytes() == word
}
