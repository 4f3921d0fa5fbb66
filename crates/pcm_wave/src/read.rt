//! Reads a wave: a walk over the chunks of a RIFF file, in their order.

ghost use Rattle.std.specs.Prelude.{◌≡◌};
ghost use Rattle.pcm_wave.specs.Chunks.{is_riff};
ghost use Rattle.pcm_wave.specs.Walks.{wave_given, known_behind, missing};
ghost use Rattle.pcm_wave.specs.Waves.{body_told, wave_of};

use crate::chunk::{Chunk, stands_at};
use crate::format_chunk::format_told;
use crate::{Wave, WaveFault};
use pcm_format::Settings;

// Where the first chunk stands.
const FIRST_CHUNK: usize = 12;

// A body that states this size or more may end with the bytes: its writer didn't know the end.
const OPEN_SIZE: usize = 0x7F000000;

/// The wave that the bytes of a file are. The body isn't copied: it stays where it stands.
pub fn read_wave(bytes: &[u8]) -> Result<Wave, WaveFault>
    ensures { result ≡ wave_of bytes.now }
{
    if !is_riff(bytes) {
        return Err(WaveFault::NotRiff);
    }
    let mut known = None;
    let mut place = FIRST_CHUNK;
    while let Some(chunk) = Chunk::at(bytes, place) {
        if chunk.is(b"data") {
            return wave_given(&chunk, known);
        }
        known = known_behind(&chunk, known)?;
        place = chunk.place_behind();
    }
    Err(missing(known))
}

// Whether the bytes begin as a RIFF file of the form WAVE. The size of the file isn't looked at.
fn is_riff(bytes: &[u8]) -> bool
    ensures { result ≡ is_riff bytes.now }
{
    stands_at(bytes, 0, b"RIFF") && stands_at(bytes, 8, b"WAVE")
}

// The settings that are known after a chunk: those of the first "fmt " chunk.
fn known_behind(chunk: &Chunk<'_>, known: Option<Settings>) -> Result<Option<Settings>, WaveFault>
    ensures { result ≡ known_behind chunk.now.bytes.now known chunk.now.place }
{
    if known.is_none() && chunk.is(b"fmt ") {
        Ok(Some(format_told(chunk)?))
    } else {
        Ok(known)
    }
}

// What a "data" chunk gives.
fn wave_given(chunk: &Chunk<'_>, known: Option<Settings>) -> Result<Wave, WaveFault>
    ensures { result ≡ wave_given chunk.now.bytes.now known chunk.now.place }
{
    match known {
        Some(settings) => body_told(chunk, settings),
        None => Err(WaveFault::NoFormat),
    }
}

// What is missing where the chunks end.
fn missing(known: Option<Settings>) -> WaveFault
    ensures { result ≡ missing known }
{
    match known {
        Some(_) => WaveFault::NoData,
        None => WaveFault::NoFormat,
    }
}

// The wave of a "data" chunk, in these settings.
fn body_told(chunk: &Chunk<'_>, settings: Settings) -> Result<Wave, WaveFault>
    ensures { result ≡ body_told chunk.now.bytes.now settings chunk.now.place }
{
    let size = chunk.size();
    if !chunk.has_body() && size < OPEN_SIZE {
        return Err(WaveFault::Truncated);
    }
    let at = chunk.body_begin();
    let len = size.min(chunk.bytes.len() - at) as u32;
    Ok(Wave {
        format: settings.format,
        layout: settings.layout,
        rate: settings.rate,
        at,
        len,
    })
}
