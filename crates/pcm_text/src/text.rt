//! The text of a script, line by line.

ghost use Rattle.std.specs.Prelude.{◌≡◌, ◌+◌, ◌≤◌, ◌∷◌, ◌++◌, [], IfOk, OnOk, drop, length, take};
ghost use Rattle.std.specs.Fmt.{decimal};
ghost use Rattle.pcm_report.specs.Lines.{bytes_text};
ghost use Rattle.pcm_script.specs.Lines.{pool_of};
ghost use Rattle.pcm_script.specs.Names.{control_name, join_name, request_name, start_group_name, way_name};
ghost use Rattle.pcm_text.specs.Texts.{AllFound, FindsBytes, argument_of, argument_words, arguments_for, command_for, control_for, setting_words, settings_words, spaced, text_of};

use crate::words::{push_bytes, push_number, push_word};
use pcm_format::Settings;
use pcm_oss::{Event, MixRequest, Request, Way};
use pcm_script::{Command, Control, Script, join_name, request_name, start_group_name, way_name};
use pcm_wave::{DataFile, Source};
use std::alloc::{AllocError, Global};

/// Writes the text of a script that reads from these data files: a line for each event.
pub fn script_text(
    alloc: Global,
    script: &Script,
    files: &[DataFile],
) -> Result<Vec<u8>, AllocError>
    requires found { AllFound files.now script.now }
    ensures text { IfOk result (λ text. text.items ≡ text_of files.now script.now) }
{
    let mut text = Vec::new(alloc);
    for event in script.events.as_slice() {
        text.extend_from_slice(command_for(event).name())?;
        push_arguments(&mut text, script, files, event)?;
        text.extend_from_slice(b"\n")?;
    }
    Ok(text)
}

// The command of an event.
fn command_for(event: &Event) -> Command
    ensures { result ≡ command_for event.now }
{
    match event {
        Event::Open { .. } => Command::Open,
        Event::Write {
            source: Source::Inline,
            ..
        } => Command::Write,
        Event::Write { .. } => Command::Send,
        Event::Poke { .. } => Command::Poke,
        Event::Read { .. } => Command::Read,
        Event::Ioctl { .. } | Event::Join { .. } | Event::StartGroup { .. } => Command::Ioctl,
        Event::Close { .. } => Command::Close,
        Event::Mixer { .. } => Command::Mixer,
        Event::Intr { .. } => Command::Intr,
    }
}

// Writes what stands after the command of an event.
fn push_arguments(
    text: &mut Vec<u8>,
    script: &Script,
    files: &[DataFile],
    event: &Event,
) -> Result<(), AllocError>
    requires found { FindsBytes (pool_of files.now script.now) event.now }
    ensures { OnOk result (text.new.items
        ≡ text.old.items ++ spaced (arguments_for (pool_of files.now script.now) event.now)) }
{
    match *event {
        Event::Open { fd, way, settings } => push_open(text, fd, way, settings),
        Event::Write {
            fd,
            source: Source::Inline,
            at,
            len,
        } => push_write(text, fd, inline(script, at, len)),
        Event::Write {
            fd,
            source: Source::File(place),
            at,
            len,
        } => push_send(text, fd, files[place].name(), at, len),
        Event::Poke {
            fd,
            offset,
            at,
            len,
        } => push_poke(text, fd, offset, inline(script, at, len)),
        Event::Read { fd, len } => push_read(text, fd, len),
        Event::Ioctl { fd, request } => push_ioctl(text, fd, request),
        Event::Join { fd, group } => push_grouping(text, fd, join_name(), group),
        Event::StartGroup { fd, group } => push_grouping(text, fd, start_group_name(), group),
        Event::Close { fd } => push_number(text, u32::from(fd)),
        Event::Mixer { request } => push_mixer(text, request),
        Event::Intr { frames } => push_number(text, frames),
    }
}

// The bytes of a script's lines that a write or a poke names.
fn inline(script: &Script, at: u32, len: u32) -> &[u8]
    requires within { at + len ≤ length script.now.inline_bytes }
    ensures { result.now ≡ take len (drop at script.now.inline_bytes) }
{
    let at = at as usize;
    &script.inline_bytes.as_slice()[at..at + len as usize]
}

fn push_open(text: &mut Vec<u8>, fd: u8, way: Way, settings: Settings) -> Result<(), AllocError>
    ensures { OnOk result (text.new.items
        ≡ text.old.items ++ spaced (decimal fd ∷ way_name way ∷ settings_words settings)) }
{
    push_number(text, u32::from(fd))?;
    push_word(text, way_name(way))?;
    push_word(text, settings.format.name())?;
    push_number(text, settings.layout.channels() as u32)?;
    push_number(text, settings.rate)
}

fn push_write(text: &mut Vec<u8>, fd: u8, bytes: &[u8]) -> Result<(), AllocError>
    ensures { OnOk result (text.new.items
        ≡ text.old.items ++ spaced (decimal fd ∷ bytes_text bytes.now ∷ [])) }
{
    push_number(text, u32::from(fd))?;
    push_bytes(text, bytes)
}

fn push_send(text: &mut Vec<u8>, fd: u8, name: &str, at: u32, count: u32) -> Result<(), AllocError>
    ensures { OnOk result (text.new.items
        ≡ text.old.items ++ spaced (decimal fd ∷ name.now ∷ decimal at ∷ decimal count ∷ [])) }
{
    push_number(text, u32::from(fd))?;
    push_word(text, name.as_bytes())?;
    push_number(text, at)?;
    push_number(text, count)
}

fn push_poke(text: &mut Vec<u8>, fd: u8, offset: u32, bytes: &[u8]) -> Result<(), AllocError>
    ensures { OnOk result (text.new.items
        ≡ text.old.items ++ spaced (decimal fd ∷ decimal offset ∷ bytes_text bytes.now ∷ [])) }
{
    push_number(text, u32::from(fd))?;
    push_number(text, offset)?;
    push_bytes(text, bytes)
}

fn push_read(text: &mut Vec<u8>, fd: u8, count: u32) -> Result<(), AllocError>
    ensures { OnOk result (text.new.items
        ≡ text.old.items ++ spaced (decimal fd ∷ decimal count ∷ [])) }
{
    push_number(text, u32::from(fd))?;
    push_number(text, count)
}

fn push_ioctl(text: &mut Vec<u8>, fd: u8, request: Request) -> Result<(), AllocError>
    ensures { OnOk result (text.new.items
        ≡ text.old.items ++ spaced (decimal fd ∷ request_name request ∷ argument_words (argument_of request))) }
{
    push_number(text, u32::from(fd))?;
    push_word(text, request_name(request))?;
    push_argument(text, request)
}

// Writes the argument of a request, if it has one.
fn push_argument(text: &mut Vec<u8>, request: Request) -> Result<(), AllocError>
    ensures { OnOk result (text.new.items ≡ text.old.items ++ spaced (argument_words (argument_of request))) }
{
    match request {
        Request::SetFmt(argument)
        | Request::Speed(argument)
        | Request::Channels(argument)
        | Request::SetFragment(argument)
        | Request::SetTrigger(argument)
        | Request::SetPlayVol(argument) => push_number(text, argument),
        _ => Ok(()),
    }
}

// Writes what is asked of a group, by the word for it.
fn push_grouping(text: &mut Vec<u8>, fd: u8, word: &[u8], group: u32) -> Result<(), AllocError>
    ensures { OnOk result (text.new.items
        ≡ text.old.items ++ spaced (decimal fd ∷ word.now ∷ decimal group ∷ [])) }
{
    push_number(text, u32::from(fd))?;
    push_word(text, word)?;
    push_number(text, group)
}

// Writes what is asked of the mixer device.
fn push_mixer(text: &mut Vec<u8>, request: MixRequest) -> Result<(), AllocError>
    ensures { OnOk result (text.new.items
        ≡ text.old.items ++ spaced (control_name (control_for request) ∷ setting_words request)) }
{
    push_word(text, control_for(request).name())?;
    push_settings(text, request)
}

// What a request of the mixer device is about.
fn control_for(request: MixRequest) -> Control
    ensures { result ≡ control_for request }
{
    match request {
        MixRequest::SetMaster(_) | MixRequest::GetMaster => Control::Master,
        MixRequest::SetSlot { .. } | MixRequest::GetSlot(_) => Control::Slot,
        MixRequest::Mute { .. } => Control::Mute,
    }
}

// Writes the numbers of a request of the mixer device.
fn push_settings(text: &mut Vec<u8>, request: MixRequest) -> Result<(), AllocError>
    ensures { OnOk result (text.new.items ≡ text.old.items ++ spaced (setting_words request)) }
{
    match request {
        MixRequest::GetMaster => Ok(()),
        MixRequest::SetMaster(number) | MixRequest::GetSlot(number) => push_number(text, number),
        MixRequest::SetSlot {
            slot,
            volume: number,
        }
        | MixRequest::Mute { slot, on: number } => {
            push_number(text, slot)?;
            push_number(text, number)
        }
    }
}
