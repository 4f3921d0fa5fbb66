//! The words of a script's language, as they are read and as they are written.

ghost use Rattle.std.specs.Prelude.{◌≡◌};
ghost use Rattle.pcm_script.specs.Names.{join_name, request_name, start_group_name, way_name, way_named};

use pcm_oss::{Request, Way};

/// What a line asks for, by its first word.
#[derive(Clone, Copy, Debug, PartialEq, Eq)]
pub enum Command {
    Open,
    Write,
    Send,
    Poke,
    Read,
    Ioctl,
    Close,
    Mixer,
    Intr,
}

impl Command {
    ghost use Rattle.pcm_script.specs.Names.{command_name, command_named};

    /// The word that names the command.
    pub fn name(self) -> &'static [u8]
        ensures { result.now ≡ command_name self }
    {
        match self {
            Command::Open => b"open",
            Command::Write => b"write",
            Command::Send => b"send",
            Command::Poke => b"poke",
            Command::Read => b"read",
            Command::Ioctl => b"ioctl",
            Command::Close => b"close",
            Command::Mixer => b"mixer",
            Command::Intr => b"intr",
        }
    }

    /// The command that a word names.
    pub fn from_name(word: &[u8]) -> Option<Command>
        ensures { result ≡ command_named word.now }
    {
        match word {
            b"open" => Some(Command::Open),
            b"write" => Some(Command::Write),
            b"send" => Some(Command::Send),
            b"poke" => Some(Command::Poke),
            b"read" => Some(Command::Read),
            b"ioctl" => Some(Command::Ioctl),
            b"close" => Some(Command::Close),
            b"mixer" => Some(Command::Mixer),
            b"intr" => Some(Command::Intr),
            _ => None,
        }
    }
}

// All ways.
const WAYS: [Way; 3] = [Way::Play, Way::Record, Way::Map];

/// The word that names a way.
pub fn way_name(way: Way) -> &'static [u8]
    ensures { result.now ≡ way_name way }
{
    match way {
        Way::Play => b"play",
        Way::Record => b"rec",
        Way::Map => b"map",
    }
}

/// The way that a word names.
pub fn way_named(word: &[u8]) -> Option<Way>
    ensures { result ≡ way_named word.now }
{
    WAYS.iter().copied().find(|way| way_name(*way) == word)
}

/// The word that names a request, whatever its argument.
pub fn request_name(request: Request) -> &'static [u8]
    ensures { result.now ≡ request_name request }
{
    match request {
        Request::SetFmt(_) => b"setfmt",
        Request::Speed(_) => b"speed",
        Request::Channels(_) => b"channels",
        Request::GetFmts => b"getfmts",
        Request::GetCaps => b"getcaps",
        Request::GetBlkSize => b"getblksize",
        Request::SetFragment(_) => b"setfragment",
        Request::GetOSpace => b"getospace",
        Request::GetISpace => b"getispace",
        Request::GetOPtr => b"getoptr",
        Request::GetIPtr => b"getiptr",
        Request::GetODelay => b"getodelay",
        Request::GetError => b"geterror",
        Request::SetTrigger(_) => b"settrigger",
        Request::GetTrigger => b"gettrigger",
        Request::SetPlayVol(_) => b"setplayvol",
        Request::GetPlayVol => b"getplayvol",
        Request::Post => b"post",
        Request::Sync => b"sync",
        Request::Halt => b"halt",
    }
}

/// The word by which a client's channel becomes a member of a group.
pub fn join_name() -> &'static [u8]
    ensures { result.now ≡ join_name }
{
    b"syncgroup"
}

/// The word by which a client starts all members of a group.
pub fn start_group_name() -> &'static [u8]
    ensures { result.now ≡ start_group_name }
{
    b"syncstart"
}

/// What a line asks of the mixer device, by the word after its command.
#[derive(Clone, Copy, Debug, PartialEq, Eq)]
pub enum Control {
    Master,
    Slot,
    Mute,
}

// All that can be asked of it.
const CONTROLS: [Control; 3] = [Control::Master, Control::Slot, Control::Mute];

impl Control {
    ghost use Rattle.pcm_script.specs.Names.{control_name, control_named};

    /// The word that names it.
    pub fn name(self) -> &'static [u8]
        ensures { result.now ≡ control_name self }
    {
        match self {
            Control::Master => b"master",
            Control::Slot => b"slot",
            Control::Mute => b"mute",
        }
    }

    /// What a word names.
    pub fn from_name(word: &[u8]) -> Option<Control>
        ensures { result ≡ control_named word.now }
    {
        CONTROLS
            .iter()
            .copied()
            .find(|control| control.name() == word)
    }
}
