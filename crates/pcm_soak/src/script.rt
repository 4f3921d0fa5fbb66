//! The script of a number.

ghost use Rattle.std.specs.Prelude.{◌≡◌, ◌<◌, ◌≤◌, IfOk};
ghost use Rattle.pcm_soak.specs.declared.limits.TheConstants.{INLINE_BYTES};
ghost use Rattle.pcm_soak.specs.Soak.{first_events, inline_byte, inline_bytes, opened, soak_script, started};

use crate::draws::Draws;
use crate::events::{drawn_event, frames_of};
use crate::limits::{DRAWN_EVENTS, INLINE_BYTES};
use pcm_format::{Bytes, Format, Layout, Settings};
use pcm_oss::{Event, Request, Way};
use pcm_script::{Events, Script};
use std::alloc::{AllocError, Global};

/// Makes the script of a number.
pub fn soak_script(alloc: Global, n: u32) -> Result<Script, AllocError>
    ensures made { IfOk result (λ script. script ≡ soak_script n) }
{
    let mut events = first_events(alloc)?;
    let mut draws = Draws {
        state: u64::from(n),
    };
    let mut device_frames = 0;
    for _ in 0..DRAWN_EVENTS {
        let event = drawn_event(&mut draws);
        device_frames += frames_of(event);
        events.push(event)?;
    }
    Ok(Script {
        events: Events::new(events),
        inline_bytes: Bytes::new(inline_bytes(alloc, INLINE_BYTES, n)?),
        device_frames,
    })
}

// What each script begins with.
fn first_events(alloc: Global) -> Result<Vec<Event>, AllocError>
    ensures { IfOk result (λ events. events.items ≡ first_events) }
{
    Ok(vec![in alloc;
        opened(0, Way::Play, Format::S16Le, Layout::Two, 44100),
        opened(1, Way::Play, Format::U8, Layout::One, 8000),
        opened(2, Way::Play, Format::S24Be, Layout::Six, 96000),
        opened(3, Way::Play, Format::S32Le, Layout::Two, 48000),
        opened(4, Way::Record, Format::S16Be, Layout::One, 22050),
        opened(5, Way::Record, Format::S32Le, Layout::Two, 48000),
        started(4),
        started(5),
    ]?)
}

// An open with settings.
fn opened(fd: u8, way: Way, format: Format, layout: Layout, rate: u32) -> Event
    ensures { result ≡ opened fd way format layout rate }
{
    let settings = Settings {
        format,
        layout,
        rate,
    };
    Event::Open { fd, way, settings }
}

// The trigger of one that records.
fn started(fd: u8) -> Event
    ensures { result ≡ started fd }
{
    let request = Request::SetTrigger(1);
    Event::Ioctl { fd, request }
}

// `count` of the bytes that are written.
#[tactic(auto, unfolding(crate::specs::Soak::inline_bytes))]
fn inline_bytes(alloc: Global, count: usize, n: u32) -> Result<Vec<u8>, AllocError>
    requires { count ≤ INLINE_BYTES }
    ensures { IfOk result (λ bytes. bytes.items ≡ inline_bytes count n) }
{
    let mut bytes = Vec::new(alloc);
    for j in 0..count {
        bytes.push(inline_byte(n, j as u64))?;
    }
    Ok(bytes)
}

fn inline_byte(n: u32, j: u64) -> u8
    requires { j < INLINE_BYTES }
    ensures { result ≡ inline_byte n j }
{
    ((31 * j * j + 7 * j + u64::from(n)) % 256) as u8
}
