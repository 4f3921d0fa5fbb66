//! What an event brings: bytes for a ring or an area, and samples to capture, from a script's pool or from a caller. And what it takes.

ghost use Rattle.std.specs.Prelude.{◌≡◌, ◌≤◌, length, take};
ghost use Rattle.pcm_wave.specs.Pools.{IsCaptureIn};
ghost use Rattle.pcm_desk.specs.Device.{unfiltered};
ghost use Rattle.pcm_desk.specs.Events.{bytes_handed};
ghost use Rattle.pcm_engine.specs.Brought.{bytes_brought, bytes_asked, padded, samples_brought, samples_asked, HasNamed};

use pcm_desk::Device;
use pcm_format::Layout;
use pcm_oss::Event;
use pcm_wave::{Pool, Source};

/// The bytes that an event names in a pool. Most events name none.
pub fn bytes_brought<'a>(event: &Event, pool: &'a Pool) -> &'a [u8]
    requires { HasNamed pool.now event.now }
    ensures { result.now ≡ bytes_brought pool.now event.now }
{
    match *event {
        Event::Write {
            source,
            at,
            len,
            ..
        } => pool.bytes_at(source, at, len),
        Event::Poke { at, len, .. } => pool.bytes_at(Source::Inline, at, len),
        _ => &[],
    }
}

/// How many bytes an event brings. Most events bring none.
pub fn bytes_asked(event: &Event) -> usize
    ensures { result ≡ bytes_asked event.now }
{
    match *event {
        Event::Write { len, .. } | Event::Poke { len, .. } => len as usize,
        _ => 0,
    }
}

/// How many samples an event captures at most, where a frame has the channels of a layout: an interrupt alone captures any.
pub fn samples_asked(layout: Layout, event: &Event) -> usize
    ensures { result ≡ samples_asked layout event.now }
{
    match *event {
        Event::Intr { frames } => frames as usize * layout.channels(),
        _ => 0,
    }
}

/// How many bytes an event gives to a device: an interrupt alone gives any.
pub fn bytes_handed(device: &Device, event: &Event) -> usize
    ensures { result ≡ bytes_handed (unfiltered device.now) event.now }
{
    match *event {
        Event::Intr { frames } => frames as usize * device.settings.frame_bytes(),
        _ => 0,
    }
}

/// Loads what an event captures of a pool, where the device had been given `handed` frames before, into the front of `captured`.
pub fn load_brought(layout: Layout, event: &Event, pool: &Pool, handed: u64, captured: &mut [i32])
    requires captures { IsCaptureIn layout pool.now }
    requires room { samples_asked layout event.now ≤ length captured.old }
    ensures length { length captured.new ≡ length captured.old }
    ensures loaded { take (samples_asked layout event.now) captured.new
        ≡ samples_brought layout pool.now handed event.now }
{
    if let Event::Intr { frames } = *event {
        let n = frames as usize;
        pool.load_captured(layout, handed, n, &mut captured[..n * layout.channels()]);
    }
}

/// Puts samples at the front of the first `count`, and silence after them.
pub fn pad(samples: &[i32], count: usize, captured: &mut [i32])
    requires within { length samples.now ≤ count }
    requires room { count ≤ length captured.old }
    ensures length { length captured.new ≡ length captured.old }
    ensures padded { take count captured.new ≡ padded count samples.now }
{
    fill_padded(samples, &mut captured[..count]);
}

fn fill_padded(samples: &[i32], captured: &mut [i32])
    requires { length samples.now ≤ length captured.old }
    ensures { captured.new ≡ padded (length captured.old) samples.now }
{
    let (front, rest) = captured.split_at_mut(samples.len());
    front.copy_from_slice(samples);
    rest.fill(0);
}
