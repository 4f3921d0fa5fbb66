//! What every opening has, whatever its way, and what a client asks of each alike.

ghost use Rattle.std.specs.Prelude.{◌≡◌};
ghost use Rattle.pcm_oss.specs.Fragments.{AreFragments};
ghost use Rattle.pcm_desk.specs.Openings.{ask, at_rate, begun, pointer_of, set_channels, set_format, set_fragments, set_rate, space_of, tell_pointer, trigger_of, with_settings, with_trigger};

use crate::Turn;
use pcm_format::{Format, Layout, RATE_LEAST, RATE_MOST, Settings};
use pcm_oss::{Answer, Errno, FRAGMENTS, Fragments, Request};

/// The codes of all fourteen sample formats, added.
pub const ALL_FORMATS: u32 = 0xff1f8;

/// What the device can do: triggers, and positions that are exact at every moment (`PCM_CAP_TRIGGER`,
/// `PCM_CAP_REALTIME`).
pub const CAPABILITIES: u32 = 0x1200;

/// What a client has set of its channel, and the position that it knows.
#[derive(Clone, Copy, Debug, PartialEq, Eq)]
pub struct Opening {
    pub settings: Settings,
    /// How the ring is cut.
    pub fragments: Fragments,
    /// Whether the channel may start by itself, or by a post.
    pub trigger: bool,
    /// The position last answered, in bytes.
    pub told: u64,
}

impl Opening {
    /// A new opening, of which nothing but the settings was asked.
    pub fn begun(settings: Settings) -> Opening
        ensures { result ≡ begun settings }
    {
        Opening {
            settings,
            fragments: FRAGMENTS,
            trigger: true,
            told: 0,
        }
    }

    /// The opening after a request that means the same for both ways, and the answer. `setup` says that nothing of a run is there
    /// yet, and `bit` is the trigger bit of the way. What is asked of one way alone is refused.
    pub(crate) fn asked(self, setup: bool, bit: u32, request: Request) -> Turn<Opening>
        requires fragments { AreFragments self.fragments }
        ensures { result ≡ ask setup bit request self }
    {
        match request {
            Request::SetFmt(code) => self.set_format(setup, code),
            Request::Speed(rate) => self.set_rate(setup, rate),
            Request::Channels(channels) => self.set_channels(setup, channels),
            Request::GetFmts => self.telling(ALL_FORMATS),
            Request::GetCaps => self.telling(CAPABILITIES),
            Request::GetBlkSize => self.telling(self.fragments.bytes()),
            Request::SetFragment(arg) => self.set_fragments(setup, arg),
            Request::GetTrigger => self.telling(self.trigger_bits(bit)),
            _ => Turn::refused(self, Errno::Inval),
        }
    }

    fn telling(self, number: u32) -> Turn<Opening>
        ensures { result ≡ record { book = self; reply = Ok (Answer.Number number) } }
    {
        Turn::telling(self, Answer::Number(number))
    }

    // The opening with other settings; 0 asks for those that are set. Settings outside their set are refused first, and then any outside
    // Setup.
    fn with_settings(
        self,
        setup: bool,
        asked: u32,
        found: Option<Settings>,
    ) -> Result<Opening, Errno>
        ensures { result ≡ with_settings setup asked found self }
    {
        if asked == 0 {
            return Ok(self);
        }
        let Some(settings) = found else {
            return Err(Errno::Inval);
        };
        if !setup {
            return Err(Errno::Busy);
        }
        Ok(Opening { settings, ..self })
    }

    fn set_format(self, setup: bool, code: u32) -> Turn<Opening>
        ensures { result ≡ set_format setup code self }
    {
        let settings = self.settings;
        let format = Format::from_code(code);
        let found = format.map(|format| Settings { format, ..settings });
        match self.with_settings(setup, code, found) {
            Ok(opening) => opening.telling(opening.settings.format.code()),
            Err(errno) => Turn::refused(self, errno),
        }
    }

    fn set_rate(self, setup: bool, rate: u32) -> Turn<Opening>
        ensures { result ≡ set_rate setup rate self }
    {
        match self.with_settings(setup, rate, at_rate(self.settings, rate)) {
            Ok(opening) => opening.telling(opening.settings.rate),
            Err(errno) => Turn::refused(self, errno),
        }
    }

    fn set_channels(self, setup: bool, channels: u32) -> Turn<Opening>
        ensures { result ≡ set_channels setup channels self }
    {
        let settings = self.settings;
        let layout = Layout::of(channels);
        let found = layout.map(|layout| Settings { layout, ..settings });
        match self.with_settings(setup, channels, found) {
            Ok(opening) => opening.telling(opening.settings.layout.channels() as u32),
            Err(errno) => Turn::refused(self, errno),
        }
    }

    fn set_fragments(self, setup: bool, arg: u32) -> Turn<Opening>
        ensures { result ≡ set_fragments setup arg self }
    {
        if !setup {
            return Turn::refused(self, Errno::Busy);
        }
        let fragments = Fragments::from_arg(arg);
        let opening = Opening { fragments, ..self };
        opening.telling(fragments.to_arg())
    }

    /// The opening with its trigger on or off.
    pub(crate) fn with_trigger(self, trigger: bool) -> Opening
        ensures { result ≡ with_trigger trigger self }
    {
        Opening { trigger, ..self }
    }

    fn trigger_bits(&self, bit: u32) -> u32
        ensures { result ≡ trigger_of bit self.now }
    {
        if self.trigger { bit } else { 0 }
    }

    /// The answer about `bytes` bytes of the ring.
    pub(crate) fn space(&self, bytes: u32) -> Answer
        requires fragments { AreFragments self.now.fragments }
        ensures { result ≡ space_of bytes self.now }
    {
        let fragsize = self.fragments.bytes();
        Answer::Space {
            fragments: bytes / fragsize,
            fragstotal: self.fragments.count,
            fragsize,
            bytes,
        }
    }

    /// The opening once its position is answered, and that answer.
    pub(crate) fn tell_pointer(self, reached: u64) -> Turn<Opening>
        requires fragments { AreFragments self.fragments }
        ensures { result ≡ tell_pointer reached self }
    {
        let pointer = self.pointer(reached);
        Turn::telling(
            Opening {
                told: reached,
                ..self
            },
            pointer,
        )
    }

    fn pointer(&self, reached: u64) -> Answer
        requires fragments { AreFragments self.now.fragments }
        ensures { result ≡ pointer_of reached self.now }
    {
        let fragsize = u64::from(self.fragments.bytes());
        Answer::Pointer {
            bytes: reached,
            blocks: (reached / fragsize).saturating_sub(self.told / fragsize),
            ptr: (reached % u64::from(self.fragments.size())) as u32,
        }
    }
}

// The same settings but for the rate, where that is within its limits.
fn at_rate(settings: Settings, rate: u32) -> Option<Settings>
    ensures { result ≡ at_rate settings rate }
{
    if rate < RATE_LEAST || rate > RATE_MOST {
        return None;
    }
    Some(Settings { rate, ..settings })
}
