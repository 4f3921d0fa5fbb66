//! The words that follow a command.

ghost use Rattle.std.specs.Prelude.{◌≡◌, ◌+◌, ◌^◌, ◌<◌, ◌≤◌, IfOk, length};
ghost use Rattle.pcm_script.specs.Answers.{Gives};
ghost use Rattle.pcm_script.specs.Commands.{argument_in, bytes_in, code_in, descriptor_in, file_in, format_in, layout_in, length_in, rate_in, size_of, way_in};

use crate::fault::LineFault;
use crate::listed::Listed;
use crate::names::way_named;
use crate::number::{number_in, number_within};
use crate::request::Setter;
use crate::{ScriptKind, hexadecimal};
use pcm_desk::{DESCRIPTORS, WRITE_BYTES};
use pcm_format::{Format, Layout, RATE_LEAST, RATE_MOST};
use pcm_oss::Way;
use pcm_wave::DataFile;
use std::alloc::Global;

// A descriptor.
pub(crate) fn descriptor_in(word: &[u8]) -> Result<u8, ScriptKind>
    ensures { result ≡ descriptor_in word.now }
{
    Ok(number_within(0, DESCRIPTORS as u32 - 1, word)? as u8)
}

// Which way sound goes.
pub(crate) fn way_in(word: &[u8]) -> Result<Way, ScriptKind>
    ensures { result ≡ way_in word.now }
{
    way_named(word).ok_or(ScriptKind::Name)
}

// A sample format by its name.
pub(crate) fn format_in(word: &[u8]) -> Result<Format, ScriptKind>
    ensures { result ≡ format_in word.now }
{
    Format::from_name(word).ok_or(ScriptKind::Name)
}

// A layout by its number of channels.
pub(crate) fn layout_in(word: &[u8]) -> Result<Layout, ScriptKind>
    ensures { result ≡ layout_in word.now }
{
    let channels = number_in(word)?;
    u32::try_from(channels)
        .ok()
        .and_then(Layout::of)
        .ok_or(ScriptKind::Range)
}

// Frames per second.
pub(crate) fn rate_in(word: &[u8]) -> Result<u32, ScriptKind>
    ensures { result ≡ rate_in word.now }
{
    number_within(RATE_LEAST, RATE_MOST, word)
}

// The place of the file that a word names.
pub(crate) fn file_in(files: &Listed<'_>, word: &[u8]) -> Result<usize, ScriptKind>
    ensures value { result ≡ file_in files.now.all.now word.now }
    ensures within { IfOk result (λ place. place < length files.now.all.now) }
{
    files.place_named(word).ok_or(ScriptKind::Name)
}

// How many bytes the file at a place has to send.
pub(crate) fn size_of(files: &[DataFile], place: usize) -> u64
    requires { place < length files.now }
    ensures value { result ≡ size_of files.now place }
    ensures most { result < 2 ^ 32 }
{
    files[place].body().len() as u64
}

// How many bytes a word asks for, which must stand after place `at` of a body of this size.
pub(crate) fn length_in(size: u64, at: u64, word: &[u8]) -> Result<u64, ScriptKind>
    ensures value { result ≡ length_in size at word.now }
    ensures within { IfOk result (λ count. at + count ≤ size) }
{
    let count = number_in(word)?;
    if at > size || count > size - at {
        return Err(ScriptKind::Range);
    }
    Ok(count)
}

// The argument of a request: any number, and for a format its name as well.
pub(crate) fn argument_in(setter: Setter, word: &[u8]) -> Result<u32, ScriptKind>
    ensures { result ≡ argument_in setter word.now }
{
    match setter {
        Setter::SetFmt => code_in(word),
        Setter::Speed
        | Setter::Channels
        | Setter::SetFragment
        | Setter::SetTrigger
        | Setter::SetPlayVol
        | Setter::Join
        | Setter::StartGroup => number_within(0, u32::MAX, word),
    }
}

// The code of a format, by the format's name or as a number.
fn code_in(word: &[u8]) -> Result<u32, ScriptKind>
    ensures { result ≡ code_in word.now }
{
    if let Some(format) = Format::from_name(word) {
        return Ok(format.code());
    }
    let code = number_in(word).ok().ok_or(ScriptKind::Name)?;
    u32::try_from(code).ok().ok_or(ScriptKind::Range)
}

// The bytes of a write or a poke.
pub(crate) fn bytes_in(alloc: Global, word: &[u8]) -> Result<Vec<u8>, LineFault>
    ensures { Gives (λ bytes. bytes.items) result (bytes_in word.now) }
{
    if word == b"-".as_slice() {
        return Ok(Vec::new(alloc));
    }
    if word.len() > 2 * WRITE_BYTES {
        return Err(LineFault::Refused(ScriptKind::Hex));
    }
    match hexadecimal::decode(alloc, word)? {
        Some(bytes) => Ok(bytes),
        None => Err(LineFault::Refused(ScriptKind::Hex)),
    }
}
