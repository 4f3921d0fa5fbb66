//! Scripts that are written and read again.

use pcm_desk::Device;
use pcm_oss::Event;
use pcm_script::{Script, script_of};
use pcm_soak::soak_script;
use pcm_text::script_text;
use pcm_wave::Source;
use std::alloc::{AllocError, Global};
use std::test::Fail;

// The bytes of a script's lines that a write of it names.
fn inline(script: &Script, at: u32, len: u32) -> Option<&[u8]> {
    let rest = script.inline_bytes.as_slice().get(at as usize..)?;
    rest.get(..len as usize)
}

// Whether two events ask for the same, with the same bytes.
fn ask_the_same(one: (&Script, Event), other: (&Script, Event)) -> bool {
    match (one.1, other.1) {
        (
            Event::Write {
                fd,
                source: Source::Inline,
                at,
                len,
            },
            Event::Write {
                fd: other_fd,
                source: Source::Inline,
                at: other_at,
                len: other_len,
            },
        ) => { fd == other_fd && inline(one.0, at, len) == inline(other.0, other_at, other_len) }
        (event, other) => event == other,
    }
}

// How many events of a script ask for the same in the other, place by place.
fn same_events(one: &Script, other: &Script) -> usize {
    let others = other.events.as_slice();
    let pairs = one.events.as_slice().iter().zip(others);
    pairs
        .filter(|(event, again)| ask_the_same((one, **event), (other, **again)))
        .count()
}

// The events of the script of a number, those of its text, and how many ask for the same; or nothing where the text is refused.
fn written_and_read(alloc: Global, n: u32) -> Result<Option<(usize, usize, usize)>, AllocError> {
    let script = soak_script(alloc, n)?;
    let text = script_text(alloc, &script, &[])?;
    let Ok(again) = script_of(alloc, &text, &Device::usual(), &[]) else {
        return Ok(None);
    };
    let events = script.events.as_slice().len();
    let read = again.events.as_slice().len();
    Ok(Some((events, read, same_events(&script, &again))))
}

#[test]
fn the_script_of_seven_is_written(rt: HostRuntime) -> Result<(), Fail> {
    assert_eq!(rt;
        written_and_read(rt.alloc(), 7)?,
        Some((20000, 20000, 20000))
    );
    Ok(())
}

// A line of each form in which one is written.
const LINES: &[u8] = b"open 0 play s16le 2 48000\n\
    open 63 rec u24be 6 4000\n\
    open 2 map u8 1 192000\n\
    write 0 01000200\n\
    write 0 -\n\
    poke 2 16 0aff\n\
    read 63 512\n\
    ioctl 0 setfmt 16\n\
    ioctl 0 sync\n\
    ioctl 0 syncgroup 0\n\
    ioctl 63 syncstart 1\n\
    mixer master\n\
    mixer master 12850\n\
    mixer slot 1\n\
    mixer slot 1 12900\n\
    mixer mute 4294967295 0\n\
    intr 1024\n\
    close 0\n";

#[test]
fn a_line_of_each_form_is_written_as_it_was_read(rt: HostRuntime) -> Result<(), Fail> {
    let script = script_of(rt.alloc(), LINES, &Device::usual(), &[])?;
    let text = script_text(rt.alloc(), &script, &[])?;
    assert_eq!(rt; text.as_slice(), LINES);
    Ok(())
}
