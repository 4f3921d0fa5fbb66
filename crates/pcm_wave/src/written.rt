//! What is written before the body of a wave.

ghost use Rattle.std.specs.Prelude.{◌≡◌, ◌<◌, ◌≤◌, ◌^◌};
ghost use Rattle.pcm_format.specs.declared.settings.TheConstants.{RATE_MOST};
ghost use Rattle.pcm_format.specs.Samples.{low_bytes};
ghost use Rattle.pcm_wave.specs.Headers.{IsBody, IsWaveFormat, header_of};

use pcm_format::Settings;

/// How many bytes a header has.
pub const HEADER_BYTES: usize = 44;

/// How many bytes the body of a wave has at most that is written here.
pub const BODY_BYTES: u32 = 268435456;

// A header of integer PCM with all other numbers zero.
const FORM: [u8; HEADER_BYTES] =
    *b"RIFF\0\0\0\0WAVEfmt \x10\0\0\0\x01\0\0\0\0\0\0\0\0\0\0\0\0\0\0\0data\0\0\0\0";

/// The header of a wave of `frames` frames. Its form's size counts the byte of padding after a body of an odd size.
pub fn header(settings: &Settings, frames: u32) -> [u8; HEADER_BYTES]
    requires format { IsWaveFormat settings.now.format }
    requires rate { settings.now.rate ≤ RATE_MOST }
    requires size { IsBody settings.now frames }
    ensures { result ≡ header_of settings.now frames }
{
    let frame = settings.frame_bytes() as u32;
    let size = frames * frame;
    let mut bytes = FORM;
    bytes[4..8].copy_from_slice(&four_bytes(36 + size + size % 2));
    bytes[22..24].copy_from_slice(&two_bytes(settings.layout.channels() as u32));
    bytes[24..28].copy_from_slice(&four_bytes(settings.rate));
    bytes[28..32].copy_from_slice(&four_bytes(settings.rate * frame));
    bytes[32..34].copy_from_slice(&two_bytes(frame));
    bytes[34..36].copy_from_slice(&two_bytes(settings.format.bits()));
    bytes[40..44].copy_from_slice(&four_bytes(size));
    bytes
}

// A number as four bytes, the lowest first.
fn four_bytes(number: u32) -> [u8; 4]
    ensures { result ≡ low_bytes 4 number }
{
    number.to_le_bytes()
}

// A number as two bytes, the lowest first.
fn two_bytes(number: u32) -> [u8; 2]
    requires { number < 2 ^ 16 }
    ensures { result ≡ low_bytes 2 number }
{
    (number as u16).to_le_bytes()
}
