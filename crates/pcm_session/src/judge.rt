//! What a session lets through to its engine.

ghost use Rattle.std.specs.Prelude.{◌≡◌};
ghost use Rattle.pcm_session.specs.Taken.{is_descriptor, is_allowed};
ghost use Rattle.pcm_desk.specs.Device.{unfiltered};

use pcm_desk::{DESCRIPTORS, Device, READ_BYTES};
use pcm_foreign::is_rate;
use pcm_oss::Event;

/// Whether an event keeps the limits of a device.
pub fn is_allowed(device: &Device, event: &Event) -> bool
    ensures { result ≡ is_allowed (unfiltered device.now) event.now }
{
    match *event {
        Event::Open { fd, settings, .. } => is_descriptor(fd) && is_rate(settings.rate),
        Event::Read { fd, len } => is_descriptor(fd) && len <= READ_BYTES,
        Event::Write { fd, .. }
        | Event::Poke { fd, .. }
        | Event::Ioctl { fd, .. }
        | Event::Join { fd, .. }
        | Event::StartGroup { fd, .. }
        | Event::Close { fd } => is_descriptor(fd),
        Event::Mixer { .. } => true,
        Event::Intr { frames } => 0 < frames && frames <= device.ring_frames,
    }
}

fn is_descriptor(fd: u8) -> bool
    ensures { result ≡ is_descriptor fd }
{
    usize::from(fd) < DESCRIPTORS
}
