//! Calls in numbers, as programs of other languages make them. Each makes an event of its numbers, takes the step on it, and answers a number: 0
//! or more, or the number of a refusal or of a fault. A call that answers a number below 0 has changed nothing.

ghost use Rattle.std.specs.Prelude.{◌≡◌, ◌≤◌, [], length, drop, IfErr, IsOk, OnErr};
ghost use Rattle.std.specs.Result.{is_ok};
ghost use Rattle.pcm_engine.specs.Engines.{AreReady, device_of};
ghost use Rattle.pcm_session.specs.Calls.{Discards, Interrupts, IsStepOf, MakesCall, asked_fault, beside, call_count, call_number, count_number, done_number, front_put, handed_count, handed_number, is_asked, open_number, read_into};
ghost use Rattle.pcm_session.specs.Taken.{unheard_room};
ghost use Rattle.pcm_session.specs.Events.{event_for_close, event_for_ioctl, event_for_join, event_for_mixer, event_for_open, event_for_poke, event_for_read, event_for_start, event_for_write};

use crate::events::{
    event_for_close, event_for_ioctl, event_for_join, event_for_mixer, event_for_open,
    event_for_poke, event_for_read, event_for_start, event_for_write,
};
use crate::session::SessionOf;
use pcm_feeder::Feeder;
use pcm_foreign::{
    AnswerNumbers, CallFault, call_fault_number, numbers_of, refusal_number, settings_from,
};
use pcm_oss::{Answer, Errno, Event};

/// Opens a descriptor; settings that no channel can have are refused as the requests for them are. Answers the number of its slot.
pub fn open<B: Feeder>(
    session: &mut SessionOf<B>,
    fd: u32,
    way: u32,
    format: u32,
    channels: u32,
    rate: u32,
) -> i32
    requires ready { AreReady B.kind B.kept session.old.engine }
    ensures makes { MakesCall B.kind B.kept (event_for_open fd way format channels rate) []
        session.old session.new }
    ensures number { result ≡ open_number fd way format channels rate session.old session.new }
{
    if settings_from(format, channels, rate).is_none() {
        return refusal_number(Errno::Inval);
    }
    count_of(
        session,
        event_for_open(fd, way, format, channels, rate),
        &[],
    )
}

/// Writes bytes. Answers how many of them were taken: the first ones.
pub fn write<B: Feeder>(session: &mut SessionOf<B>, fd: u32, bytes: &[u8]) -> i32
    requires ready { AreReady B.kind B.kept session.old.engine }
    ensures makes { MakesCall B.kind B.kept (event_for_write fd (length bytes.now)) bytes.now
        session.old session.new }
    ensures number { result ≡ call_number count_number
        (event_for_write fd (length bytes.now)) bytes.now session.old session.new }
{
    count_of(session, event_for_write(fd, bytes.len()), bytes)
}

/// Writes bytes into an area, from its byte `offset` on.
pub fn poke<B: Feeder>(session: &mut SessionOf<B>, fd: u32, offset: u32, bytes: &[u8]) -> i32
    requires ready { AreReady B.kind B.kept session.old.engine }
    ensures makes { MakesCall B.kind B.kept (event_for_poke fd offset (length bytes.now)) bytes.now
        session.old session.new }
    ensures number { result ≡ call_number count_number
        (event_for_poke fd offset (length bytes.now)) bytes.now session.old session.new }
{
    count_of(session, event_for_poke(fd, offset, bytes.len()), bytes)
}

/// Starts all members of a group.
pub fn start<B: Feeder>(session: &mut SessionOf<B>, fd: u32, group: u32) -> i32
    requires ready { AreReady B.kind B.kept session.old.engine }
    ensures makes { MakesCall B.kind B.kept (event_for_start fd group) [] session.old session.new }
    ensures number { result ≡ call_number count_number
        (event_for_start fd group) [] session.old session.new }
{
    count_of(session, event_for_start(fd, group), &[])
}

/// Closes a descriptor.
pub fn close<B: Feeder>(session: &mut SessionOf<B>, fd: u32) -> i32
    requires ready { AreReady B.kind B.kept session.old.engine }
    ensures makes { MakesCall B.kind B.kept (event_for_close fd) [] session.old session.new }
    ensures number { result ≡ call_number count_number
        (event_for_close fd) [] session.old session.new }
{
    count_of(session, event_for_close(fd), &[])
}

/// Asks something of the channel of a descriptor. The answer is put into `answer`.
pub fn ioctl<B: Feeder>(
    session: &mut SessionOf<B>,
    fd: u32,
    request: u32,
    argument: u32,
    answer: &mut AnswerNumbers,
) -> i32
    requires ready { AreReady B.kind B.kept session.old.engine }
    ensures makes { MakesCall B.kind B.kept (event_for_ioctl fd request argument) []
        session.old session.new }
    ensures number { result ≡ call_number done_number
        (event_for_ioctl fd request argument) [] session.old session.new }
    ensures answer { answer.new
        ≡ beside (event_for_ioctl fd request argument) session.old session.new answer.old }
{
    done_beside(session, event_for_ioctl(fd, request, argument), answer)
}

/// Makes a descriptor a member of a group. The number of the group is put into `answer`.
pub fn join<B: Feeder>(
    session: &mut SessionOf<B>,
    fd: u32,
    group: u32,
    answer: &mut AnswerNumbers,
) -> i32
    requires ready { AreReady B.kind B.kept session.old.engine }
    ensures makes { MakesCall B.kind B.kept (event_for_join fd group) [] session.old session.new }
    ensures number { result ≡ call_number done_number
        (event_for_join fd group) [] session.old session.new }
    ensures answer { answer.new
        ≡ beside (event_for_join fd group) session.old session.new answer.old }
{
    done_beside(session, event_for_join(fd, group), answer)
}

/// Asks something of the mixer device. The answer is put into `answer`.
pub fn ask_mixer<B: Feeder>(
    session: &mut SessionOf<B>,
    request: u32,
    slot: u32,
    value: u32,
    answer: &mut AnswerNumbers,
) -> i32
    requires ready { AreReady B.kind B.kept session.old.engine }
    ensures makes { MakesCall B.kind B.kept (event_for_mixer request slot value) []
        session.old session.new }
    ensures number { result ≡ call_number done_number
        (event_for_mixer request slot value) [] session.old session.new }
    ensures answer { answer.new
        ≡ beside (event_for_mixer request slot value) session.old session.new answer.old }
{
    done_beside(session, event_for_mixer(request, slot, value), answer)
}

/// Reads at most as many bytes as there is room for. Answers how many stand at the front of `out`; the rest of it stays.
pub fn read<B: Feeder>(session: &mut SessionOf<B>, fd: u32, out: &mut [u8]) -> i32
    requires ready { AreReady B.kind B.kept session.old.engine }
    ensures makes { MakesCall B.kind B.kept (event_for_read fd (length out.old)) []
        session.old session.new }
    ensures number { result ≡ call_number count_number
        (event_for_read fd (length out.old)) [] session.old session.new }
    ensures out { out.new
        ≡ read_into (event_for_read fd (length out.old)) session.old session.new out.old }
{
    match takes(session, event_for_read(fd, out.len()), &[]) {
        Ok(()) => {
            put_front(session.bytes(), out);
            count_number(session.result())
        }
        Err(fault) => call_fault_number(fault),
    }
}

/// The device takes `frames` frames, and brings what it captured meanwhile: samples at 32 bits, followed by silence. Answers how many bytes
/// the device was given: they stand at the front of `out`, and the rest of it stays.
pub fn interrupt<B: Feeder>(
    session: &mut SessionOf<B>,
    frames: u32,
    samples: &[i32],
    out: &mut [u8],
) -> i32
    requires ready { AreReady B.kind B.kept session.old.engine }
    ensures interrupts { Interrupts B.kind B.kept frames samples.now out.new session.old session.new }
    ensures number { result ≡ handed_number session.old frames (length samples.now) (length out.old) }
    ensures rest { drop (handed_count session.old frames (length samples.now) (length out.old)) out.new
        ≡ drop (handed_count session.old frames (length samples.now) (length out.old)) out.old }
{
    match session.step(&Event::Intr { frames }, &[], samples, out) {
        Ok(count) => call_count(count),
        Err(fault) => call_fault_number(fault),
    }
}

/// The device takes `frames` frames, as by `interrupt`, and nobody hears them: there is no room for their bytes. Answers how many bytes
/// these were.
pub fn discard<B: Feeder>(session: &mut SessionOf<B>, frames: u32, samples: &[i32]) -> i32
    requires ready { AreReady B.kind B.kept session.old.engine }
    ensures discards { Discards B.kind B.kept frames samples.now session.old session.new }
    ensures number { result ≡ handed_number session.old frames (length samples.now)
        (unheard_room (device_of session.old.engine)) }
{
    match session.step_unheard(&Event::Intr { frames }, &[], samples) {
        Ok(count) => call_count(count),
        Err(fault) => call_fault_number(fault),
    }
}

// Takes the step on an event, if there is one and the engine takes it.
fn takes<B: Feeder>(
    session: &mut SessionOf<B>,
    event: Option<Event>,
    bytes: &[u8],
) -> Result<(), CallFault>
    requires ready { AreReady B.kind B.kept session.old.engine }
    ensures ready { AreReady B.kind B.kept session.new.engine }
    ensures asked { is_ok result ≡ is_asked session.old.engine event (length bytes.now) 0 0 }
    ensures fault { IfErr result (λ fault. fault ≡ asked_fault session.old.engine event (length bytes.now) 0) }
    ensures step { IsOk result → IsStepOf B.kept event bytes.now []
        session.old.engine session.new.engine session.new.reply [] }
    ensures same { OnErr result (session.new ≡ session.old) }
{
    let Some(event) = event else {
        return Err(CallFault::Argument);
    };
    session.step(&event, bytes, &[], &mut [])?;
    Ok(())
}

// The step on an event, and what its reply counts.
fn count_of<B: Feeder>(session: &mut SessionOf<B>, event: Option<Event>, bytes: &[u8]) -> i32
    requires ready { AreReady B.kind B.kept session.old.engine }
    ensures makes { MakesCall B.kind B.kept event bytes.now session.old session.new }
    ensures number { result ≡ call_number count_number
        event bytes.now session.old session.new }
{
    match takes(session, event, bytes) {
        Ok(()) => count_number(session.result()),
        Err(fault) => call_fault_number(fault),
    }
}

// The step on an event without bytes, and the numbers of its reply.
fn done_beside<B: Feeder>(
    session: &mut SessionOf<B>,
    event: Option<Event>,
    answer: &mut AnswerNumbers,
) -> i32
    requires ready { AreReady B.kind B.kept session.old.engine }
    ensures makes { MakesCall B.kind B.kept event [] session.old session.new }
    ensures number { result ≡ call_number done_number event [] session.old session.new }
    ensures answer { answer.new ≡ beside event session.old session.new answer.old }
{
    if let Err(fault) = takes(session, event, &[]) {
        return call_fault_number(fault);
    }
    match session.result() {
        Ok(told) => {
            *answer = numbers_of(told);
            0
        }
        Err(errno) => refusal_number(errno),
    }
}

// What a result counts, if anything.
fn count_number(told: Result<Answer, Errno>) -> i32
    ensures { result ≡ count_number told }
{
    match told {
        Ok(Answer::Number(count) | Answer::Got(count)) => call_count(count as usize),
        Ok(_) => 0,
        Err(errno) => refusal_number(errno),
    }
}

// A count, as a call answers it.
fn call_count(count: usize) -> i32
    ensures { result ≡ call_count count }
{
    count.min(i32::MAX as usize) as i32
}

// Puts bytes at the front of others.
fn put_front(bytes: &[u8], out: &mut [u8])
    requires { length bytes.now ≤ length out.old }
    ensures { out.new ≡ front_put bytes.now out.old }
{
    out[..bytes.len()].copy_from_slice(bytes);
}
