//! What a line asks for.

ghost use Rattle.std.specs.Prelude.{◌≡◌, ◌≤◌, length};
ghost use Rattle.pcm_desk.specs.declared.limits.TheConstants.{WRITE_BYTES};

use pcm_format::Bytes;
use pcm_oss::Event;
use pcm_wave::Source;

/// An event whose bytes its line spells, which have no place yet, or one without bytes of its line.
#[derive(Debug, Drop)]
pub enum LineEvent {
    Write { fd: u8, bytes: Bytes },
    Poke { fd: u8, offset: u32, bytes: Bytes },
    /// An event that is whole by itself.
    Whole(Event),
}

impl LineEvent {
    ghost use Rattle.pcm_script.specs.Collecting.{event_at, frames_asked, own_bytes};

    // The bytes that the line spells.
    pub(crate) fn bytes(&self) -> &[u8]
        ensures { result.now ≡ own_bytes self.now }
    {
        match self {
            LineEvent::Write { bytes, .. } | LineEvent::Poke { bytes, .. } => bytes.as_slice(),
            _ => &[],
        }
    }

    // The frames that the line takes.
    pub(crate) fn frames(&self) -> u32
        ensures { result ≡ frames_asked self.now }
    {
        match self {
            LineEvent::Whole(Event::Intr { frames }) => *frames,
            _ => 0,
        }
    }

    // The event, with a place for its bytes.
    pub(crate) fn event_at(&self, place: u32) -> Event
        requires { length (own_bytes self.now) ≤ WRITE_BYTES }
        ensures { result ≡ event_at place self.now }
    {
        match *self {
            LineEvent::Write { fd, ref bytes } => Event::Write {
                fd,
                source: Source::Inline,
                at: place,
                len: bytes.as_slice().len() as u32,
            },
            LineEvent::Poke {
                fd,
                offset,
                ref bytes,
            } => Event::Poke {
                fd,
                offset,
                at: place,
                len: bytes.as_slice().len() as u32,
            },
            LineEvent::Whole(event) => event,
        }
    }
}
