//! Which forms the line of a command has.

use pcm_script::{Command, Control, Named, request_named};
use std::alloc::{AllocError, Global};

/// The forms of a command. The words after it may narrow them.
pub fn forms_of(
    alloc: Global,
    command: Command,
    arguments: &[&[u8]],
) -> Result<String, AllocError> {
    match (command, arguments) {
        (Command::Ioctl, [_, name, ..]) => request_forms(alloc, name),
        (Command::Mixer, [control, ..]) => String::from_str(alloc, control_forms(control)),
        _ => String::from_str(alloc, plain_forms(command)),
    }
}

fn plain_forms(command: Command) -> &'static str {
    match command {
        Command::Open => "the forms are open D WAY and open D WAY FORMAT CHANNELS RATE",
        Command::Write => "the form is write D HEX",
        Command::Send => "the form is send D FILE OFFSET LENGTH",
        Command::Poke => "the form is poke D OFFSET HEX",
        Command::Read => "the form is read D LENGTH",
        Command::Ioctl => "the forms are ioctl D NAME and ioctl D NAME N",
        Command::Close => "the form is close D",
        Command::Mixer => "the forms are mixer master [A], mixer slot S [A] and mixer mute S A",
        Command::Intr => "the forms are intr and intr N",
    }
}

// The form of a request, by its name.
fn request_forms(alloc: Global, name: &[u8]) -> Result<String, AllocError> {
    let (Some(named), Ok(name)) = (request_named(name), std::str::from_utf8(name)) else {
        return String::from_str(alloc, plain_forms(Command::Ioctl));
    };
    match named {
        Named::Plain(_) => format!(in alloc; "the form is ioctl D {name}"),
        Named::Full(_) => format!(in alloc; "the form is ioctl D {name} N"),
    }
}

fn control_forms(word: &[u8]) -> &'static str {
    match Control::from_name(word) {
        Some(Control::Master) => "the forms are mixer master and mixer master A",
        Some(Control::Slot) => "the forms are mixer slot S and mixer slot S A",
        Some(Control::Mute) => "the form is mixer mute S A",
        None => plain_forms(Command::Mixer),
    }
}
