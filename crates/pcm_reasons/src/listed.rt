//! What there is of a kind, as lists of names.

use crate::showing::list;
use pcm_config::FilePaths;
use pcm_format::{Format, Layout};
use pcm_oss::Way;
use pcm_script::{Command, Control, Named, REQUESTS, way_name};
use pcm_wave::is_wave_format;
use std::alloc::{AllocError, Global};

const COMMANDS: [Command; 9] = [
    Command::Open,
    Command::Write,
    Command::Send,
    Command::Poke,
    Command::Read,
    Command::Ioctl,
    Command::Close,
    Command::Mixer,
    Command::Intr,
];

const WAYS: [Way; 3] = [Way::Play, Way::Record, Way::Map];

const CONTROLS: [Control; 3] = [Control::Master, Control::Slot, Control::Mute];

// How many names of files are listed at most.
pub(crate) const FILES_LISTED: usize = 8;

/// All commands, as a list.
pub fn commands(alloc: Global) -> Result<String, AllocError> {
    let mut text = String::new(alloc);
    for command in COMMANDS {
        list(&mut text, command.name())?;
    }
    Ok(text)
}

pub(crate) fn ways(alloc: Global) -> Result<String, AllocError> {
    let mut text = String::new(alloc);
    for way in WAYS {
        list(&mut text, way_name(way))?;
    }
    Ok(text)
}

pub(crate) fn controls(alloc: Global) -> Result<String, AllocError> {
    let mut text = String::new(alloc);
    for control in CONTROLS {
        list(&mut text, control.name())?;
    }
    Ok(text)
}

// The requests that have an argument, or those that have none.
pub(crate) fn requests(alloc: Global, has_argument: bool) -> Result<String, AllocError> {
    let mut text = String::new(alloc);
    for named in REQUESTS {
        if matches!(named, Named::Full(_)) == has_argument {
            list(&mut text, named.name())?;
        }
    }
    Ok(text)
}

// The formats by their codes, each of which is one bit.
pub(crate) fn formats(alloc: Global) -> Result<String, AllocError> {
    let mut text = String::new(alloc);
    for bit in 0..u32::BITS {
        if let Some(format) = Format::from_code(1 << bit) {
            list(&mut text, format.name())?;
        }
    }
    Ok(text)
}

// The formats that a wave has.
pub(crate) fn wave_formats(alloc: Global) -> Result<String, AllocError> {
    let mut text = String::new(alloc);
    for bit in 0..u32::BITS {
        match Format::from_code(1 << bit) {
            Some(format) if is_wave_format(format) => list(&mut text, format.name())?,
            _ => {}
        }
    }
    Ok(text)
}

// The numbers of channels that a layout has.
pub(crate) fn layouts(alloc: Global) -> Result<String, AllocError> {
    let mut text = String::new(alloc);
    for channels in 0..u8::MAX {
        if Layout::of(u32::from(channels)).is_some() {
            let number = format!(in alloc; "{channels}")?;
            list(&mut text, number.as_bytes())?;
        }
    }
    Ok(text)
}

// The first names of files.
pub(crate) fn files(alloc: Global, files: &FilePaths) -> Result<String, AllocError> {
    let mut text = String::new(alloc);
    for file in files.as_slice().iter().take(FILES_LISTED) {
        list(&mut text, file.name.as_str().as_bytes())?;
    }
    if files.as_slice().len() > FILES_LISTED {
        text.push_str(" ..")?;
    }
    Ok(text)
}

// Words of a table's keys.
pub(crate) fn words(alloc: Global, words: &[&str]) -> Result<String, AllocError> {
    let mut text = String::new(alloc);
    for word in words {
        list(&mut text, word.as_bytes())?;
    }
    Ok(text)
}
