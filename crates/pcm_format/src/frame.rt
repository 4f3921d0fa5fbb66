//! Many samples one after another.

ghost use Rattle.std.specs.Prelude.{◌≡◌, ◌*◌, length, All};
ghost use Rattle.std.specs.List.{flat_map};
ghost use Rattle.pcm_num.specs.Limit.{FitsBits};
ghost use Rattle.pcm_format.specs.Formats.{bits_of, bytes_of};
ghost use Rattle.pcm_format.specs.Samples.{samples, spelled};

use crate::Format;
use crate::sample::{load, spell};

/// Loads each sample of `bytes`.
// Each format has the same loop, compiled for that format alone: so no sample asks for its width, order or sign.
pub fn load_frames(f: Format, bytes: &[u8], out: &mut [i32])
    requires { length bytes.now ≡ length out.old * bytes_of f }
    ensures { out.new ≡ samples f bytes.now }
{
    match f {
        Format::U8 => load_each(Format::U8, bytes, out),
        Format::S8 => load_each(Format::S8, bytes, out),
        Format::S16Le => load_each(Format::S16Le, bytes, out),
        Format::S16Be => load_each(Format::S16Be, bytes, out),
        Format::U16Le => load_each(Format::U16Le, bytes, out),
        Format::U16Be => load_each(Format::U16Be, bytes, out),
        Format::S24Le => load_each(Format::S24Le, bytes, out),
        Format::S24Be => load_each(Format::S24Be, bytes, out),
        Format::U24Le => load_each(Format::U24Le, bytes, out),
        Format::U24Be => load_each(Format::U24Be, bytes, out),
        Format::S32Le => load_each(Format::S32Le, bytes, out),
        Format::S32Be => load_each(Format::S32Be, bytes, out),
        Format::U32Le => load_each(Format::U32Le, bytes, out),
        Format::U32Be => load_each(Format::U32Be, bytes, out),
    }
}

#[inline(always)]
fn load_each(f: Format, bytes: &[u8], out: &mut [i32])
    requires { length bytes.now ≡ length out.old * bytes_of f }
    ensures { out.new ≡ samples f bytes.now }
{
    let width = f.bytes();
    for i in 0..out.len() {
        let at = i * width;
        out[i] = load(f, &bytes[at..at + width]);
    }
}

/// Spells each value.
pub fn spell_frames(f: Format, values: &[i32], out: &mut [u8])
    requires lengths { length out.old ≡ length values.now * bytes_of f }
    requires range { All (FitsBits (bits_of f)) values.now }
    ensures { out.new ≡ flat_map (spelled f) values.now }
{
    match f {
        Format::U8 => spell_each(Format::U8, values, out),
        Format::S8 => spell_each(Format::S8, values, out),
        Format::S16Le => spell_each(Format::S16Le, values, out),
        Format::S16Be => spell_each(Format::S16Be, values, out),
        Format::U16Le => spell_each(Format::U16Le, values, out),
        Format::U16Be => spell_each(Format::U16Be, values, out),
        Format::S24Le => spell_each(Format::S24Le, values, out),
        Format::S24Be => spell_each(Format::S24Be, values, out),
        Format::U24Le => spell_each(Format::U24Le, values, out),
        Format::U24Be => spell_each(Format::U24Be, values, out),
        Format::S32Le => spell_each(Format::S32Le, values, out),
        Format::S32Be => spell_each(Format::S32Be, values, out),
        Format::U32Le => spell_each(Format::U32Le, values, out),
        Format::U32Be => spell_each(Format::U32Be, values, out),
    }
}

#[inline(always)]
fn spell_each(f: Format, values: &[i32], out: &mut [u8])
    requires lengths { length out.old ≡ length values.now * bytes_of f }
    requires range { All (FitsBits (bits_of f)) values.now }
    ensures { out.new ≡ flat_map (spelled f) values.now }
{
    let width = f.bytes();
    for i in 0..values.len() {
        let at = i * width;
        spell(f, values[i], &mut out[at..at + width]);
    }
}
