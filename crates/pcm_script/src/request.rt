//! What is asked of a channel or of a group, by its name.

ghost use Rattle.std.specs.Prelude.{◌≡◌};
ghost use Rattle.pcm_script.specs.Requests.{as_full, as_plain, asked_with, name_asked, name_in_table, request_named};

use crate::ScriptKind;
use crate::names::{join_name, request_name, start_group_name};
use pcm_oss::{Event, Request};

/// What the name of a request stands for.
#[derive(Clone, Copy)]
pub enum Named {
    /// A request without an argument.
    Plain(Request),
    /// What is asked with an argument, which follows its name.
    Full(Setter),
}

/// What a line asks, without its descriptor and its argument.
#[derive(Clone, Copy)]
pub enum Setter {
    SetFmt,
    Speed,
    Channels,
    SetFragment,
    SetTrigger,
    SetPlayVol,
    Join,
    StartGroup,
}

/// All of them, in the order of `Request`, and then what is asked of groups.
pub const REQUESTS: [Named; 22] = [
    Named::Full(Setter::SetFmt),
    Named::Full(Setter::Speed),
    Named::Full(Setter::Channels),
    Named::Plain(Request::GetFmts),
    Named::Plain(Request::GetCaps),
    Named::Plain(Request::GetBlkSize),
    Named::Full(Setter::SetFragment),
    Named::Plain(Request::GetOSpace),
    Named::Plain(Request::GetISpace),
    Named::Plain(Request::GetOPtr),
    Named::Plain(Request::GetIPtr),
    Named::Plain(Request::GetODelay),
    Named::Plain(Request::GetError),
    Named::Full(Setter::SetTrigger),
    Named::Plain(Request::GetTrigger),
    Named::Full(Setter::SetPlayVol),
    Named::Plain(Request::GetPlayVol),
    Named::Plain(Request::Post),
    Named::Plain(Request::Sync),
    Named::Plain(Request::Halt),
    Named::Full(Setter::Join),
    Named::Full(Setter::StartGroup),
];

impl Named {
    /// The word that names it.
    pub fn name(self) -> &'static [u8]
        ensures { result.now ≡ name_in_table self }
    {
        match self {
            Named::Plain(request) => request_name(request),
            Named::Full(setter) => name_asked(setter.with(0, 0)),
        }
    }
}

impl Setter {
    // What a line asks by it, of a descriptor and with an argument.
    pub(crate) fn with(self, fd: u8, argument: u32) -> Event
        ensures { result ≡ asked_with self fd argument }
    {
        let group = argument;
        let request = match self {
            Setter::SetFmt => Request::SetFmt(argument),
            Setter::Speed => Request::Speed(argument),
            Setter::Channels => Request::Channels(argument),
            Setter::SetFragment => Request::SetFragment(argument),
            Setter::SetTrigger => Request::SetTrigger(argument),
            Setter::SetPlayVol => Request::SetPlayVol(argument),
            Setter::Join => return Event::Join { fd, group },
            Setter::StartGroup => return Event::StartGroup { fd, group },
        };
        Event::Ioctl { fd, request }
    }
}

// The name by which an event asks, whatever its argument.
fn name_asked(event: Event) -> &'static [u8]
    ensures { result.now ≡ name_asked event }
{
    match event {
        Event::Ioctl { request, .. } => request_name(request),
        Event::Join { .. } => join_name(),
        Event::StartGroup { .. } => start_group_name(),
        _ => &[],
    }
}

// The request of a name, which must be one without an argument if there is one.
pub(crate) fn plain_request(name: &[u8]) -> Result<Option<Request>, ScriptKind>
    ensures { result ≡ as_plain (request_named name.now) }
{
    match request_named(name) {
        None => Ok(None),
        Some(Named::Plain(request)) => Ok(Some(request)),
        Some(Named::Full(_)) => Err(ScriptKind::Count),
    }
}

// The request of a name, which must be one with an argument if there is one.
pub(crate) fn full_request(name: &[u8]) -> Result<Option<Setter>, ScriptKind>
    ensures { result ≡ as_full (request_named name.now) }
{
    match request_named(name) {
        None => Ok(None),
        Some(Named::Plain(_)) => Err(ScriptKind::Count),
        Some(Named::Full(setter)) => Ok(Some(setter)),
    }
}

/// What a name stands for.
pub fn request_named(name: &[u8]) -> Option<Named>
    ensures { result ≡ request_named name.now }
{
    REQUESTS.iter().copied().find(|named| named.name() == name)
}
