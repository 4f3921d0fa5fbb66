//! What each command asks for.

ghost use Rattle.std.specs.Prelude.{◌≡◌, ◌∷◌, []};
ghost use Rattle.pcm_desk.specs.Device.{unfiltered};
ghost use Rattle.pcm_script.specs.Answers.{Asks};
ghost use Rattle.pcm_script.specs.Commands.{asked_by, close_line, command_line, interrupt_line, ioctl_line, line_event, open_line, poke_line, read_line, send_line, write_line};
ghost use Rattle.pcm_script.specs.Words.{lent};

use crate::ScriptKind;
use crate::argument::{
    argument_in, bytes_in, descriptor_in, file_in, format_in, layout_in, length_in, rate_in,
    size_of, way_in,
};
use crate::fault::LineFault;
use crate::line_event::LineEvent;
use crate::listed::Listed;
use crate::mixer::mixer_line;
use crate::names::Command;
use crate::number::{number_in, number_within};
use crate::request::{full_request, plain_request};
use pcm_desk::{Device, OPENING, READ_BYTES};
use pcm_format::{Bytes, Settings};
use pcm_oss::Event;
use pcm_wave::Source;
use std::alloc::Global;

// What a line of these words asks for.
#[tactic(auto, unfolding(crate::specs::Commands::line_event))]
pub(crate) fn line_event(
    alloc: Global,
    device: &Device,
    files: &Listed<'_>,
    words: &[&[u8]],
) -> Result<Option<LineEvent>, LineFault>
    ensures { Asks result (line_event (unfiltered device.now) files.now.all.now (lent words.now)) }
{
    match words {
        [] => Ok(None),
        [word, arguments @ ..] => Ok(Some(command_line(alloc, device, files, word, arguments)?)),
    }
}

#[tactic(auto, unfolding(crate::specs::Commands::command_line))]
fn command_line(
    alloc: Global,
    device: &Device,
    files: &Listed<'_>,
    word: &[u8],
    arguments: &[&[u8]],
) -> Result<LineEvent, LineFault>
    ensures { Asks result
        (command_line (unfiltered device.now) files.now.all.now word.now (lent arguments.now)) }
{
    let command = Command::from_name(word).ok_or(ScriptKind::Word)?;
    asked_by(alloc, device, files, command, arguments)
}

// What a command asks for.
fn asked_by(
    alloc: Global,
    device: &Device,
    files: &Listed<'_>,
    command: Command,
    arguments: &[&[u8]],
) -> Result<LineEvent, LineFault>
    ensures { Asks result
        (asked_by (unfiltered device.now) files.now.all.now command (lent arguments.now)) }
{
    match command {
        Command::Open => Ok(LineEvent::Whole(open_line(arguments)?)),
        Command::Write => write_line(alloc, arguments),
        Command::Send => Ok(LineEvent::Whole(send_line(files, arguments)?)),
        Command::Poke => poke_line(alloc, arguments),
        Command::Read => Ok(LineEvent::Whole(read_line(arguments)?)),
        Command::Ioctl => Ok(LineEvent::Whole(ioctl_line(arguments)?)),
        Command::Close => Ok(LineEvent::Whole(close_line(arguments)?)),
        Command::Mixer => Ok(LineEvent::Whole(mixer_line(arguments)?)),
        Command::Intr => Ok(LineEvent::Whole(interrupt_line(device, arguments)?)),
    }
}

#[tactic(auto, unfolding(crate::specs::Commands::open_line))]
fn open_line(arguments: &[&[u8]]) -> Result<Event, ScriptKind>
    ensures { result ≡ open_line (lent arguments.now) }
{
    match arguments {
        [d, w] => plain_open(d, w),
        [d, w, f, c, r] => full_open(d, w, f, c, r),
        _ => Err(ScriptKind::Count),
    }
}

// An open that names no settings.
#[tactic(auto, unfolding(crate::specs::Commands::open_line))]
fn plain_open(d: &[u8], w: &[u8]) -> Result<Event, ScriptKind>
    ensures { result ≡ open_line (d.now ∷ w.now ∷ []) }
{
    let fd = descriptor_in(d)?;
    let way = way_in(w)?;
    let settings = OPENING;
    Ok(Event::Open { fd, way, settings })
}

// An open that names a format, a number of channels and a rate.
#[tactic(auto, unfolding(crate::specs::Commands::open_line))]
fn full_open(d: &[u8], w: &[u8], f: &[u8], c: &[u8], r: &[u8]) -> Result<Event, ScriptKind>
    ensures { result ≡ open_line (d.now ∷ w.now ∷ f.now ∷ c.now ∷ r.now ∷ []) }
{
    let fd = descriptor_in(d)?;
    let way = way_in(w)?;
    let settings = Settings {
        format: format_in(f)?,
        layout: layout_in(c)?,
        rate: rate_in(r)?,
    };
    Ok(Event::Open { fd, way, settings })
}

#[tactic(auto, unfolding(crate::specs::Commands::write_line))]
fn write_line(alloc: Global, arguments: &[&[u8]]) -> Result<LineEvent, LineFault>
    ensures { Asks result (write_line (lent arguments.now)) }
{
    let [d, h] = arguments else {
        return Err(LineFault::Refused(ScriptKind::Count));
    };
    full_write(alloc, d, h)
}

// A write that names a descriptor and bytes.
#[tactic(auto, unfolding(crate::specs::Commands::write_line))]
fn full_write(alloc: Global, d: &[u8], h: &[u8]) -> Result<LineEvent, LineFault>
    ensures { Asks result (write_line (d.now ∷ h.now ∷ [])) }
{
    let fd = descriptor_in(d)?;
    let bytes = Bytes::new(bytes_in(alloc, h)?);
    Ok(LineEvent::Write { fd, bytes })
}

#[tactic(auto, unfolding(crate::specs::Commands::send_line))]
fn send_line(files: &Listed<'_>, arguments: &[&[u8]]) -> Result<Event, ScriptKind>
    ensures { result ≡ send_line files.now.all.now (lent arguments.now) }
{
    let [d, f, o, l] = arguments else {
        return Err(ScriptKind::Count);
    };
    full_send(files, d, f, o, l)
}

// A send that names a descriptor, a file, and a part of its body.
#[tactic(auto, unfolding(crate::specs::Commands::send_line))]
fn full_send(
    files: &Listed<'_>,
    d: &[u8],
    f: &[u8],
    o: &[u8],
    l: &[u8],
) -> Result<Event, ScriptKind>
    ensures { result ≡ send_line files.now.all.now (d.now ∷ f.now ∷ o.now ∷ l.now ∷ []) }
{
    let fd = descriptor_in(d)?;
    let file = file_in(files, f)?;
    let at = number_in(o)?;
    let count = length_in(size_of(files.all, file), at, l)?;
    Ok(Event::Write {
        fd,
        source: Source::File(file),
        at: at as u32,
        len: count as u32,
    })
}

#[tactic(auto, unfolding(crate::specs::Commands::poke_line))]
fn poke_line(alloc: Global, arguments: &[&[u8]]) -> Result<LineEvent, LineFault>
    ensures { Asks result (poke_line (lent arguments.now)) }
{
    let [d, o, h] = arguments else {
        return Err(LineFault::Refused(ScriptKind::Count));
    };
    full_poke(alloc, d, o, h)
}

// A poke that names a descriptor, a place of its area, and bytes.
#[tactic(auto, unfolding(crate::specs::Commands::poke_line))]
fn full_poke(alloc: Global, d: &[u8], o: &[u8], h: &[u8]) -> Result<LineEvent, LineFault>
    ensures { Asks result (poke_line (d.now ∷ o.now ∷ h.now ∷ [])) }
{
    let fd = descriptor_in(d)?;
    let offset = number_within(0, u32::MAX, o)?;
    let bytes = Bytes::new(bytes_in(alloc, h)?);
    Ok(LineEvent::Poke { fd, offset, bytes })
}

#[tactic(auto, unfolding(crate::specs::Commands::read_line))]
fn read_line(arguments: &[&[u8]]) -> Result<Event, ScriptKind>
    ensures { result ≡ read_line (lent arguments.now) }
{
    let [d, l] = arguments else {
        return Err(ScriptKind::Count);
    };
    full_read(d, l)
}

// A read that names a descriptor and a number of bytes.
#[tactic(auto, unfolding(crate::specs::Commands::read_line))]
fn full_read(d: &[u8], l: &[u8]) -> Result<Event, ScriptKind>
    ensures { result ≡ read_line (d.now ∷ l.now ∷ []) }
{
    let fd = descriptor_in(d)?;
    let len = number_within(0, READ_BYTES, l)?;
    Ok(Event::Read { fd, len })
}

#[tactic(auto, unfolding(crate::specs::Commands::ioctl_line))]
fn ioctl_line(arguments: &[&[u8]]) -> Result<Event, ScriptKind>
    ensures { result ≡ ioctl_line (lent arguments.now) }
{
    match arguments {
        [d, name] => plain_ioctl(d, name),
        [d, name, a] => full_ioctl(d, name, a),
        _ => Err(ScriptKind::Count),
    }
}

// A request without an argument.
#[tactic(auto, unfolding(crate::specs::Commands::ioctl_line))]
fn plain_ioctl(d: &[u8], name: &[u8]) -> Result<Event, ScriptKind>
    ensures { result ≡ ioctl_line (d.now ∷ name.now ∷ []) }
{
    let named = plain_request(name)?;
    let fd = descriptor_in(d)?;
    let request = named.ok_or(ScriptKind::Name)?;
    Ok(Event::Ioctl { fd, request })
}

// A request with an argument.
#[tactic(auto, unfolding(crate::specs::Commands::ioctl_line))]
fn full_ioctl(d: &[u8], name: &[u8], a: &[u8]) -> Result<Event, ScriptKind>
    ensures { result ≡ ioctl_line (d.now ∷ name.now ∷ a.now ∷ []) }
{
    let named = full_request(name)?;
    let fd = descriptor_in(d)?;
    let setter = named.ok_or(ScriptKind::Name)?;
    let argument = argument_in(setter, a)?;
    Ok(setter.with(fd, argument))
}

#[tactic(auto, unfolding(crate::specs::Commands::close_line))]
fn close_line(arguments: &[&[u8]]) -> Result<Event, ScriptKind>
    ensures { result ≡ close_line (lent arguments.now) }
{
    let [d] = arguments else {
        return Err(ScriptKind::Count);
    };
    let fd = descriptor_in(d)?;
    Ok(Event::Close { fd })
}

#[tactic(auto, unfolding(crate::specs::Commands::interrupt_line))]
fn interrupt_line(device: &Device, arguments: &[&[u8]]) -> Result<Event, ScriptKind>
    ensures { result ≡ interrupt_line (unfiltered device.now) (lent arguments.now) }
{
    let frames = match arguments {
        [] => device.block_frames,
        [n] => number_within(1, device.ring_frames, n)?,
        _ => return Err(ScriptKind::Count),
    };
    Ok(Event::Intr { frames })
}
