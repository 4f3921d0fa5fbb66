//! What each word of a line must be.

use pcm_config::Config;
use pcm_desk::{DESCRIPTORS, READ_BYTES};
use pcm_format::{Format, Layout, RATE_LEAST, RATE_MOST};
use pcm_script::{
    Command, Control, Named, ScriptKind, Setter, number_in, request_named, way_named,
};

// What a word after a command must be.
#[derive(Clone, Copy, PartialEq, Eq)]
pub(crate) enum Wanted {
    Descriptor,
    Way,
    Format,
    Channels,
    Rate,
    File,
    // A place of a file's body, and how many bytes from there on.
    Place,
    Length,
    Bytes,
    ReadLength,
    Frames,
    PlainRequest,
    FullRequest,
    // A format by its name or its code.
    Code,
    Control,
    // A number of 32 bits.
    Number,
}

// The least and the greatest number of a set, and what it is of.
#[derive(Clone, Copy)]
pub(crate) struct NumberSet {
    pub(crate) least: u32,
    pub(crate) most: u32,
    pub(crate) of: &'static str,
}

const OPEN: &[Wanted] = &[
    Wanted::Descriptor,
    Wanted::Way,
    Wanted::Format,
    Wanted::Channels,
    Wanted::Rate,
];

const WRITE: &[Wanted] = &[Wanted::Descriptor, Wanted::Bytes];

const SEND: &[Wanted] = &[
    Wanted::Descriptor,
    Wanted::File,
    Wanted::Place,
    Wanted::Length,
];

const POKE: &[Wanted] = &[Wanted::Descriptor, Wanted::Number, Wanted::Bytes];

const READ: &[Wanted] = &[Wanted::Descriptor, Wanted::ReadLength];

const ASKED: &[Wanted] = &[Wanted::Descriptor, Wanted::PlainRequest];

const ASKED_WITH: &[Wanted] = &[Wanted::Descriptor, Wanted::FullRequest, Wanted::Number];

const ASKED_WITH_A_FORMAT: &[Wanted] = &[Wanted::Descriptor, Wanted::FullRequest, Wanted::Code];

const CLOSE: &[Wanted] = &[Wanted::Descriptor];

const MIXER: &[Wanted] = &[Wanted::Control, Wanted::Number, Wanted::Number];

const INTR: &[Wanted] = &[Wanted::Frames];

// What the words after a command must be, from left to right.
pub(crate) fn wanted_of(command: Command, arguments: &[&[u8]]) -> &'static [Wanted] {
    match command {
        Command::Open => OPEN,
        Command::Write => WRITE,
        Command::Send => SEND,
        Command::Poke => POKE,
        Command::Read => READ,
        Command::Ioctl => wanted_of_request(arguments),
        Command::Close => CLOSE,
        Command::Mixer => MIXER,
        Command::Intr => INTR,
    }
}

fn wanted_of_request(arguments: &[&[u8]]) -> &'static [Wanted] {
    let [_, name, _] = arguments else {
        return ASKED;
    };
    match request_named(name) {
        Some(Named::Full(Setter::SetFmt)) => ASKED_WITH_A_FORMAT,
        _ => ASKED_WITH,
    }
}

// Whether a word has a fault of this kind where it stands for what is wanted.
pub(crate) fn is_wrong(config: &Config, kind: ScriptKind, wanted: Wanted, word: &[u8]) -> bool {
    match kind {
        ScriptKind::Number => is_number(wanted) && number_in(word).is_err(),
        ScriptKind::Name => !is_name(config, wanted, word),
        ScriptKind::Hex => wanted == Wanted::Bytes,
        ScriptKind::Range => is_outside(config, wanted, word),
        ScriptKind::Word | ScriptKind::Count | ScriptKind::Long => false,
    }
}

// Whether a number is wanted, and nothing but that.
fn is_number(wanted: Wanted) -> bool {
    matches!(
        wanted,
        Wanted::Descriptor
            | Wanted::Channels
            | Wanted::Rate
            | Wanted::Place
            | Wanted::Length
            | Wanted::ReadLength
            | Wanted::Frames
            | Wanted::Number
    )
}

// Whether a word is a name, where one is wanted.
fn is_name(config: &Config, wanted: Wanted, word: &[u8]) -> bool {
    match wanted {
        Wanted::Way => way_named(word).is_some(),
        Wanted::Format => Format::from_name(word).is_some(),
        Wanted::File => is_file(config, word),
        Wanted::PlainRequest | Wanted::FullRequest => request_named(word).is_some(),
        Wanted::Code => Format::from_name(word).is_some() || number_in(word).is_ok(),
        Wanted::Control => Control::from_name(word).is_some(),
        _ => true,
    }
}

fn is_file(config: &Config, word: &[u8]) -> bool {
    for file in config.files.as_slice() {
        if file.name.as_str().as_bytes() == word {
            return true;
        }
    }
    false
}

// Whether a word is a number, and outside the set of what is wanted. A length is judged with its place and its file, and last of
// its line.
fn is_outside(config: &Config, wanted: Wanted, word: &[u8]) -> bool {
    let Ok(number) = number_in(word) else {
        return false;
    };
    match set_of(config, wanted) {
        Some(set) => number < u64::from(set.least) || number > u64::from(set.most),
        None if wanted == Wanted::Channels => !is_layout(number),
        None => wanted == Wanted::Length,
    }
}

fn is_layout(channels: u64) -> bool {
    match u32::try_from(channels) {
        Ok(channels) => Layout::of(channels).is_some(),
        Err(_) => false,
    }
}

// The set of a number that is wanted, if it has all from one to another.
pub(crate) fn set_of(config: &Config, wanted: Wanted) -> Option<NumberSet> {
    match wanted {
        Wanted::Descriptor => Some(set(0, DESCRIPTORS as u32 - 1, "descriptors")),
        Wanted::Rate => Some(set(RATE_LEAST, RATE_MOST, "frames per second")),
        Wanted::ReadLength => Some(set(0, READ_BYTES, "bytes of a read")),
        Wanted::Frames => Some(set(1, config.device.ring_frames, "device.hw_block * hw_blocks")),
        Wanted::Number | Wanted::Code => Some(set(0, u32::MAX, "32 bits")),
        _ => None,
    }
}

fn set(least: u32, most: u32, of: &'static str) -> NumberSet {
    NumberSet { least, most, of }
}
