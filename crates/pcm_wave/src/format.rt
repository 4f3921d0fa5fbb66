//! The sample formats that waves have.

ghost use Rattle.std.specs.Prelude.{◌≡◌};
ghost use Rattle.pcm_wave.specs.Formats.{is_wave_format};

use pcm_format::Format;

/// Whether waves have samples of a format: bytes without a sign, and little-endian numbers of 16, 24 or 32 bits with one.
pub fn is_wave_format(format: Format) -> bool
    ensures { result ≡ is_wave_format format }
{
    matches!(
        format,
        Format::U8 | Format::S16Le | Format::S24Le | Format::S32Le
    )
}
