//! What the "fmt " chunk of a wave states.

ghost use Rattle.std.specs.Prelude.{◌≡◌, ◌+◌, ◌≤◌, length};
ghost use Rattle.pcm_wave.specs.Waves.{checked, format_of_bits, format_told, is_pcm, settings_told};

use crate::WaveFault;
use crate::chunk::{Chunk, stands_at, u16_at, u32_at};
use pcm_format::{Format, Layout, RATE_LEAST, RATE_MOST, Settings};

// The tag of integer PCM, and that of an extensible format.
const PCM_TAG: u32 = 1;

const EXTENSIBLE_TAG: u32 = 0xFFFE;

// What an extensible format names where it is integer PCM.
const PCM_NAME: [u8; 16] = [
    1, 0, 0, 0, 0, 0, 0x10, 0, 0x80, 0, 0, 0xAA, 0, 0x38, 0x9B, 0x71,
];

// The settings that a "fmt " chunk states.
pub(crate) fn format_told(chunk: &Chunk<'_>) -> Result<Settings, WaveFault>
    ensures { result ≡ format_told chunk.now.bytes.now chunk.now.place }
{
    if !chunk.has_body() {
        return Err(WaveFault::Truncated);
    }
    settings_told(chunk.bytes, chunk.body_begin(), chunk.size()).ok_or(WaveFault::Unsupported)
}

// The settings that a body of "fmt " states.
fn settings_told(bytes: &[u8], at: usize, size: usize) -> Option<Settings>
    requires { at + size ≤ length bytes.now }
    ensures { result ≡ settings_told bytes.now at size }
{
    if size < 16 || !is_pcm(bytes, at, size) {
        return None;
    }
    let format = format_of_bits(u16_at(bytes, at + 14))?;
    let layout = Layout::of(u16_at(bytes, at + 2))?;
    let rate = u32_at(bytes, at + 4);
    let settings = Settings {
        format,
        layout,
        rate,
    };
    checked(settings, u16_at(bytes, at + 12) as usize)
}

// Whether a body of "fmt " states integer PCM, plainly or as an extensible format.
fn is_pcm(bytes: &[u8], at: usize, size: usize) -> bool
    requires within { at + size ≤ length bytes.now }
    requires tag { 2 ≤ size }
    ensures { result ≡ is_pcm bytes.now at size }
{
    let tag = u16_at(bytes, at);
    tag == PCM_TAG || (tag == EXTENSIBLE_TAG && size >= 40 && stands_at(bytes, at + 24, &PCM_NAME))
}

// The format of samples of a number of bits.
fn format_of_bits(bits: u32) -> Option<Format>
    ensures { result ≡ format_of_bits bits }
{
    match bits {
        8 => Some(Format::U8),
        16 => Some(Format::S16Le),
        24 => Some(Format::S24Le),
        32 => Some(Format::S32Le),
        _ => None,
    }
}

// Settings whose rate is within the limits, and whose frames have `align` bytes.
fn checked(settings: Settings, align: usize) -> Option<Settings>
    ensures { result ≡ checked settings align }
{
    let has_rate = RATE_LEAST <= settings.rate && settings.rate <= RATE_MOST;
    if has_rate && settings.frame_bytes() == align {
        Some(settings)
    } else {
        None
    }
}
