//! The engine as C calls it: each function is one call of a session that C holds, and adds nothing to what that call does.
//! Numbers, lengths and references come from C; that these are what C says they are is trusted.
#![tactic(auto)]

ghost use Rattle.std.specs.Prelude.{◌≡◌, ◌<◌, ◌^◌, IfSome, IsSome, None, [], length, drop, true, pos, if◌then◌else◌};
ghost use Rattle.pcm_engine.specs.Clones.{IsCloneOf};
ghost use Rattle.pcm_engine.specs.Engines.{desk_of, device_of};
ghost use Rattle.pcm_engine.specs.Views.{is_idle};
ghost use Rattle.pcm_engine_c.specs.Calls.{On};
ghost use Rattle.pcm_engine_c.specs.Sessions.{IsCloned, IsMade, is_possible};
ghost use Rattle.pcm_foreign.specs.Answers.{call_fault_number, fault_number};
ghost use Rattle.pcm_foreign.specs.declared.call_fault.CallFault.TheVariants.{Engine};
ghost use Rattle.pcm_foreign.specs.declared.fault.NumbersFault.TheVariants.{Memory};
ghost use Rattle.pcm_session.specs.Calls.{Discards, Interrupts, MakesCall, beside, call_number, count_number, done_number, handed_count, handed_number, open_number, read_into};
ghost use Rattle.pcm_session.specs.Questions.{peek_told, ready_told, told_settings, slot_told};
ghost use Rattle.pcm_session.specs.Taken.{frames_left, unheard_room};
ghost use Rattle.pcm_engine.specs.Saved.{engine_state};
ghost use Rattle.pcm_session.specs.States.{GoesOnFrom, IsCauseFor};
ghost use Rattle.pcm_engine_c.specs.Sessions.{IsLoaded};
ghost use Rattle.pcm_engine_c.specs.Told.{IsSaveTold, IsTold, IsWait, ready_number, saved_number, wait_number};
ghost use Rattle.pcm_session.specs.Events.{event_for_close, event_for_ioctl, event_for_join, event_for_mixer, event_for_open, event_for_poke, event_for_read, event_for_start, event_for_write};

mod handle;
mod session;

use feed_stages::Stage;
use handle::Handle;
use pcm_feeder::Feeder;
use pcm_foreign::{
    AnswerNumbers, CallFault, DeviceNumbers, FilterNumbers, NOT_AN_ENGINE, NumbersFault,
    SectionNumbers, call_fault_number, fault_number,
};
use pcm_session::{SettingsNumbers, SlotNumbers, load_fault_number};
use session::{session_clone, session_from, session_load};
use std::alloc::Global;

/// Makes the engine of a device, with filters and sections. Where there is one, none is made.
#[unsafe(no_mangle)]
pub extern "C" fn dsp_raw_new(
    alloc: Global,
    engine: &mut Handle,
    device: &DeviceNumbers,
    filters: &[FilterNumbers],
    coefs: &[i32],
    sections: &[SectionNumbers],
) -> i32
    ensures made { IsMade (λ session. session.of.engine) ⟦<Stage as Feeder>⟧.kept device.now filters.now coefs.now sections.now
        engine.old.slot.session engine.new.slot.session result }
    ensures memory { result ≡ fault_number Memory
        → (engine.old.slot.session ≡ None) × (is_possible device.now filters.now coefs.now sections.now ≡ true) }
{
    if engine.is_there() {
        return NOT_AN_ENGINE;
    }
    match session_from(alloc, device, filters, coefs, sections) {
        Ok(session) => {
            engine.put(session);
            0
        }
        Err(fault) => fault_number(fault),
    }
}

/// Makes the clone of an engine in an empty handle: it goes on where that engine is. Where there is one already, none is made.
#[unsafe(no_mangle)]
pub extern "C" fn dsp_raw_clone(alloc: Global, engine: &mut Handle, clone: &mut Handle) -> i32
    ensures stays { engine.new.slot.session ≡ engine.old.slot.session }
    ensures made { IsCloned (λ session made. IsCloneOf ⟦<Stage as Feeder>⟧.kind ⟦<Stage as Feeder>⟧.kept session.of.engine made.of.engine)
        engine.old.slot.session clone.old.slot.session clone.new.slot.session result }
    ensures memory { result ≡ fault_number Memory
        → IsSome engine.old.slot.session × (clone.old.slot.session ≡ None) }
{
    if clone.is_there() {
        return NOT_AN_ENGINE;
    }
    let Some(session) = engine.take(alloc) else {
        return NOT_AN_ENGINE;
    };
    let made = session_clone(alloc, &session);
    engine.put(session);
    let Ok(made) = made else {
        return fault_number(NumbersFault::Memory);
    };
    clone.put(made);
    0
}

/// How many bytes spell all that an engine keeps.
#[unsafe(no_mangle)]
pub extern "C" fn dsp_raw_state_size(alloc: Global, engine: &mut Handle) -> i64
    ensures same { engine.new.slot.session ≡ engine.old.slot.session }
    ensures size { IfSome engine.old.slot.session (λ session. result ≡ pos (length (engine_state ⟦<Stage as Feeder>⟧.kept session.of.engine))) }
    ensures none { engine.old.slot.session ≡ None → result ≡ call_fault_number Engine }
{
    let Some(session) = engine.take(alloc) else {
        return i64::from(NOT_AN_ENGINE);
    };
    let size = session.of.state_size();
    engine.put(session);
    size_number(size)
}

/// Spells all that an engine keeps at the front of a room, and answers how many bytes these are.
#[unsafe(no_mangle)]
pub extern "C" fn dsp_raw_save(alloc: Global, engine: &mut Handle, out: &mut [u8]) -> i64
    ensures same { engine.new.slot.session ≡ engine.old.slot.session }
    ensures saved { IfSome engine.old.slot.session (λ session. IsSaveTold
        ⟦<Stage as Feeder>⟧.kind ⟦<Stage as Feeder>⟧.kept session.of.engine out.old out.new result) }
    ensures none { engine.old.slot.session ≡ None
        → (result ≡ call_fault_number Engine) × (out.new ≡ out.old) }
{
    let Some(session) = engine.take(alloc) else {
        return i64::from(NOT_AN_ENGINE);
    };
    let saved = session.of.save(out);
    engine.put(session);
    saved_number(saved)
}

/// An engine goes on as the bytes of a state tell, which is of its device. Where they are refused, nothing changes.
#[unsafe(no_mangle)]
pub extern "C" fn dsp_raw_load(alloc: Global, engine: &mut Handle, bytes: &[u8]) -> i32
    ensures { IsLoaded (λ session loaded. GoesOnFrom
        ⟦<Stage as Feeder>⟧.kind ⟦<Stage as Feeder>⟧.kept bytes.now session.of.engine loaded.of.engine)
        (λ session. IsCauseFor ⟦<Stage as Feeder>⟧.kind ⟦<Stage as Feeder>⟧.kept bytes.now session.of.engine)
        engine.old.slot.session engine.new.slot.session result }
{
    let Some(session) = engine.take(alloc) else {
        return NOT_AN_ENGINE;
    };
    match session_load(alloc, &session, bytes) {
        Ok(loaded) => {
            engine.put(loaded);
            0
        }
        Err(fault) => {
            engine.put(session);
            load_fault_number(fault)
        }
    }
}

/// Frees an engine, if there is one.
#[unsafe(no_mangle)]
pub extern "C" fn dsp_raw_free(alloc: Global, engine: &mut Handle)
    ensures { engine.new.slot.session ≡ None }
{
    drop(engine.take(alloc));
}

/// Opens a descriptor.
#[unsafe(no_mangle)]
pub extern "C" fn dsp_raw_open(
    alloc: Global,
    engine: &mut Handle,
    fd: u32,
    way: u32,
    format: u32,
    channels: u32,
    rate: u32,
) -> i32
    ensures makes { On engine.old engine.new (λ old new.
        MakesCall ⟦<Stage as Feeder>⟧.kind ⟦<Stage as Feeder>⟧.kept (event_for_open fd way format channels rate) [] old.of new.of) }
    ensures number { On engine.old engine.new (λ old new.
        result ≡ open_number fd way format channels rate old.of new.of) }
    ensures none { engine.old.slot.session ≡ None
        → result ≡ call_fault_number Engine }
{
    let Some(mut session) = engine.take(alloc) else {
        return NOT_AN_ENGINE;
    };
    let number = pcm_session::open(&mut session.of, fd, way, format, channels, rate);
    engine.put(session);
    number
}

/// Writes bytes to a descriptor that plays.
#[unsafe(no_mangle)]
pub extern "C" fn dsp_raw_write(alloc: Global, engine: &mut Handle, fd: u32, bytes: &[u8]) -> i32
    ensures makes { On engine.old engine.new (λ old new.
        MakesCall ⟦<Stage as Feeder>⟧.kind ⟦<Stage as Feeder>⟧.kept (event_for_write fd (length bytes.now)) bytes.now old.of new.of) }
    ensures number { On engine.old engine.new (λ old new.
        result ≡ call_number count_number (event_for_write fd (length bytes.now)) bytes.now old.of new.of) }
    ensures none { engine.old.slot.session ≡ None
        → result ≡ call_fault_number Engine }
{
    let Some(mut session) = engine.take(alloc) else {
        return NOT_AN_ENGINE;
    };
    let number = pcm_session::write(&mut session.of, fd, bytes);
    engine.put(session);
    number
}

/// Writes bytes into the area of a mapped descriptor.
#[unsafe(no_mangle)]
pub extern "C" fn dsp_raw_poke(
    alloc: Global,
    engine: &mut Handle,
    fd: u32,
    offset: u32,
    bytes: &[u8],
) -> i32
    ensures makes { On engine.old engine.new (λ old new.
        MakesCall ⟦<Stage as Feeder>⟧.kind ⟦<Stage as Feeder>⟧.kept (event_for_poke fd offset (length bytes.now)) bytes.now old.of new.of) }
    ensures number { On engine.old engine.new (λ old new.
        result ≡ call_number count_number (event_for_poke fd offset (length bytes.now)) bytes.now old.of new.of) }
    ensures none { engine.old.slot.session ≡ None
        → result ≡ call_fault_number Engine }
{
    let Some(mut session) = engine.take(alloc) else {
        return NOT_AN_ENGINE;
    };
    let number = pcm_session::poke(&mut session.of, fd, offset, bytes);
    engine.put(session);
    number
}

/// Reads what a descriptor has recorded.
#[unsafe(no_mangle)]
pub extern "C" fn dsp_raw_read(alloc: Global, engine: &mut Handle, fd: u32, out: &mut [u8]) -> i32
    ensures makes { On engine.old engine.new (λ old new.
        MakesCall ⟦<Stage as Feeder>⟧.kind ⟦<Stage as Feeder>⟧.kept (event_for_read fd (length out.old)) [] old.of new.of) }
    ensures number { On engine.old engine.new (λ old new.
        result ≡ call_number count_number (event_for_read fd (length out.old)) [] old.of new.of) }
    ensures out { On engine.old engine.new (λ old new.
        out.new ≡ read_into (event_for_read fd (length out.old)) old.of new.of out.old) }
    ensures none { engine.old.slot.session ≡ None
        → (result ≡ call_fault_number Engine) × (out.new ≡ out.old) }
{
    let Some(mut session) = engine.take(alloc) else {
        return NOT_AN_ENGINE;
    };
    let number = pcm_session::read(&mut session.of, fd, out);
    engine.put(session);
    number
}

/// Asks something of the channel of a descriptor.
#[unsafe(no_mangle)]
pub extern "C" fn dsp_raw_ioctl(
    alloc: Global,
    engine: &mut Handle,
    fd: u32,
    request: u32,
    argument: u32,
    answer: &mut AnswerNumbers,
) -> i32
    ensures makes { On engine.old engine.new (λ old new.
        MakesCall ⟦<Stage as Feeder>⟧.kind ⟦<Stage as Feeder>⟧.kept (event_for_ioctl fd request argument) [] old.of new.of) }
    ensures number { On engine.old engine.new (λ old new.
        result ≡ call_number done_number (event_for_ioctl fd request argument) [] old.of new.of) }
    ensures answer { On engine.old engine.new (λ old new.
        answer.new ≡ beside (event_for_ioctl fd request argument) old.of new.of answer.old) }
    ensures none { engine.old.slot.session ≡ None
        → (result ≡ call_fault_number Engine) × (answer.new ≡ answer.old) }
{
    let Some(mut session) = engine.take(alloc) else {
        return NOT_AN_ENGINE;
    };
    let number = pcm_session::ioctl(&mut session.of, fd, request, argument, answer);
    engine.put(session);
    number
}

/// Makes a descriptor a member of a group.
#[unsafe(no_mangle)]
pub extern "C" fn dsp_raw_join(
    alloc: Global,
    engine: &mut Handle,
    fd: u32,
    group: u32,
    answer: &mut AnswerNumbers,
) -> i32
    ensures makes { On engine.old engine.new (λ old new.
        MakesCall ⟦<Stage as Feeder>⟧.kind ⟦<Stage as Feeder>⟧.kept (event_for_join fd group) [] old.of new.of) }
    ensures number { On engine.old engine.new (λ old new.
        result ≡ call_number done_number (event_for_join fd group) [] old.of new.of) }
    ensures answer { On engine.old engine.new (λ old new.
        answer.new ≡ beside (event_for_join fd group) old.of new.of answer.old) }
    ensures none { engine.old.slot.session ≡ None
        → (result ≡ call_fault_number Engine) × (answer.new ≡ answer.old) }
{
    let Some(mut session) = engine.take(alloc) else {
        return NOT_AN_ENGINE;
    };
    let number = pcm_session::join(&mut session.of, fd, group, answer);
    engine.put(session);
    number
}

/// Starts all members of a group.
#[unsafe(no_mangle)]
pub extern "C" fn dsp_raw_start(alloc: Global, engine: &mut Handle, fd: u32, group: u32) -> i32
    ensures makes { On engine.old engine.new (λ old new.
        MakesCall ⟦<Stage as Feeder>⟧.kind ⟦<Stage as Feeder>⟧.kept (event_for_start fd group) [] old.of new.of) }
    ensures number { On engine.old engine.new (λ old new.
        result ≡ call_number count_number (event_for_start fd group) [] old.of new.of) }
    ensures none { engine.old.slot.session ≡ None
        → result ≡ call_fault_number Engine }
{
    let Some(mut session) = engine.take(alloc) else {
        return NOT_AN_ENGINE;
    };
    let number = pcm_session::start(&mut session.of, fd, group);
    engine.put(session);
    number
}

/// Closes a descriptor.
#[unsafe(no_mangle)]
pub extern "C" fn dsp_raw_close(alloc: Global, engine: &mut Handle, fd: u32) -> i32
    ensures makes { On engine.old engine.new (λ old new.
        MakesCall ⟦<Stage as Feeder>⟧.kind ⟦<Stage as Feeder>⟧.kept (event_for_close fd) [] old.of new.of) }
    ensures number { On engine.old engine.new (λ old new.
        result ≡ call_number count_number (event_for_close fd) [] old.of new.of) }
    ensures none { engine.old.slot.session ≡ None
        → result ≡ call_fault_number Engine }
{
    let Some(mut session) = engine.take(alloc) else {
        return NOT_AN_ENGINE;
    };
    let number = pcm_session::close(&mut session.of, fd);
    engine.put(session);
    number
}

/// Asks something of the mixer device.
#[unsafe(no_mangle)]
pub extern "C" fn dsp_raw_mixer(
    alloc: Global,
    engine: &mut Handle,
    request: u32,
    slot: u32,
    value: u32,
    answer: &mut AnswerNumbers,
) -> i32
    ensures makes { On engine.old engine.new (λ old new.
        MakesCall ⟦<Stage as Feeder>⟧.kind ⟦<Stage as Feeder>⟧.kept (event_for_mixer request slot value) [] old.of new.of) }
    ensures number { On engine.old engine.new (λ old new.
        result ≡ call_number done_number (event_for_mixer request slot value) [] old.of new.of) }
    ensures answer { On engine.old engine.new (λ old new.
        answer.new ≡ beside (event_for_mixer request slot value) old.of new.of answer.old) }
    ensures none { engine.old.slot.session ≡ None
        → (result ≡ call_fault_number Engine) × (answer.new ≡ answer.old) }
{
    let Some(mut session) = engine.take(alloc) else {
        return NOT_AN_ENGINE;
    };
    let number = pcm_session::ask_mixer(&mut session.of, request, slot, value, answer);
    engine.put(session);
    number
}

/// The device takes frames, and brings what it captured.
#[unsafe(no_mangle)]
pub extern "C" fn dsp_raw_interrupt(
    alloc: Global,
    engine: &mut Handle,
    frames: u32,
    samples: &[i32],
    out: &mut [u8],
) -> i32
    ensures interrupts { On engine.old engine.new (λ old new.
        Interrupts ⟦<Stage as Feeder>⟧.kind ⟦<Stage as Feeder>⟧.kept frames samples.now out.new old.of new.of) }
    ensures number { On engine.old engine.new (λ old new.
        result ≡ handed_number old.of frames (length samples.now) (length out.old)) }
    ensures rest { On engine.old engine.new (λ old new.
        drop (handed_count old.of frames (length samples.now) (length out.old)) out.new
        ≡ drop (handed_count old.of frames (length samples.now) (length out.old)) out.old) }
    ensures none { engine.old.slot.session ≡ None
        → (result ≡ call_fault_number Engine) × (out.new ≡ out.old) }
{
    let Some(mut session) = engine.take(alloc) else {
        return NOT_AN_ENGINE;
    };
    let number = pcm_session::interrupt(&mut session.of, frames, samples, out);
    engine.put(session);
    number
}

/// The device takes frames that nobody hears, and brings what it captured.
#[unsafe(no_mangle)]
pub extern "C" fn dsp_raw_discard(
    alloc: Global,
    engine: &mut Handle,
    frames: u32,
    samples: &[i32],
) -> i32
    ensures discards { On engine.old engine.new (λ old new.
        Discards ⟦<Stage as Feeder>⟧.kind ⟦<Stage as Feeder>⟧.kept frames samples.now old.of new.of) }
    ensures number { On engine.old engine.new (λ old new.
        result ≡ handed_number old.of frames (length samples.now) (unheard_room (device_of old.of.engine))) }
    ensures none { engine.old.slot.session ≡ None → result ≡ call_fault_number Engine }
{
    let Some(mut session) = engine.take(alloc) else {
        return NOT_AN_ENGINE;
    };
    let number = pcm_session::discard(&mut session.of, frames, samples);
    engine.put(session);
    number
}

/// Answers how many frames the engine still hands over: none without an engine.
#[unsafe(no_mangle)]
pub extern "C" fn dsp_raw_frames_left(alloc: Global, engine: &mut Handle) -> u64
    ensures same { engine.new.slot.session ≡ engine.old.slot.session }
    ensures left { IfSome engine.old.slot.session (λ session. result ≡ frames_left session.of.engine.parent.handed) }
    ensures none { engine.old.slot.session ≡ None → result ≡ 0 }
{
    let Some(session) = engine.take(alloc) else {
        return 0;
    };
    let left = session.of.frames_left();
    engine.put(session);
    left
}

/// How the channel of a descriptor is.
#[unsafe(no_mangle)]
pub extern "C" fn dsp_raw_settings(
    alloc: Global,
    engine: &mut Handle,
    fd: u32,
    settings: &mut SettingsNumbers,
) -> i32
    ensures same { engine.new.slot.session ≡ engine.old.slot.session }
    ensures told { IfSome engine.old.slot.session (λ session. IsTold
        (told_settings (device_of session.of.engine) (desk_of session.of.engine) fd) result settings.old settings.new) }
    ensures none { engine.old.slot.session ≡ None
        → (result ≡ call_fault_number Engine) × (settings.new ≡ settings.old) }
{
    let Some(session) = engine.take(alloc) else {
        return NOT_AN_ENGINE;
    };
    let number = tell(session.of.settings(fd), settings);
    engine.put(session);
    number
}

/// What a request of the channel of a descriptor would be answered.
#[unsafe(no_mangle)]
pub extern "C" fn dsp_raw_peek(
    alloc: Global,
    engine: &mut Handle,
    fd: u32,
    request: u32,
    argument: u32,
    answer: &mut AnswerNumbers,
) -> i32
    ensures same { engine.new.slot.session ≡ engine.old.slot.session }
    ensures told { IfSome engine.old.slot.session (λ session. IsTold
        (peek_told (device_of session.of.engine) (desk_of session.of.engine) fd request argument) result answer.old answer.new) }
    ensures none { engine.old.slot.session ≡ None
        → (result ≡ call_fault_number Engine) × (answer.new ≡ answer.old) }
{
    let Some(session) = engine.take(alloc) else {
        return NOT_AN_ENGINE;
    };
    let number = tell(session.of.peek(fd, request, argument), answer);
    engine.put(session);
    number
}

/// How a slot is.
#[unsafe(no_mangle)]
pub extern "C" fn dsp_raw_slot(
    alloc: Global,
    engine: &mut Handle,
    way: u32,
    number: u32,
    slot: &mut SlotNumbers,
) -> i32
    ensures same { engine.new.slot.session ≡ engine.old.slot.session }
    ensures told { IfSome engine.old.slot.session (λ session. IsTold
        (slot_told (device_of session.of.engine) (desk_of session.of.engine) way number) result slot.old slot.new) }
    ensures none { engine.old.slot.session ≡ None
        → (result ≡ call_fault_number Engine) × (slot.new ≡ slot.old) }
{
    let Some(session) = engine.take(alloc) else {
        return NOT_AN_ENGINE;
    };
    let told = tell(session.of.slot(way, number), slot);
    engine.put(session);
    told
}

/// Answers 1 where no slot of any way is taken, else 0.
#[unsafe(no_mangle)]
pub extern "C" fn dsp_raw_is_idle(alloc: Global, engine: &mut Handle) -> i32
    ensures same { engine.new.slot.session ≡ engine.old.slot.session }
    ensures told { IfSome engine.old.slot.session (λ session.
        result ≡ (if is_idle (desk_of session.of.engine) then pos 1 else pos 0)) }
    ensures none { engine.old.slot.session ≡ None → result ≡ call_fault_number Engine }
{
    let Some(session) = engine.take(alloc) else {
        return NOT_AN_ENGINE;
    };
    let idle = session.of.is_idle();
    engine.put(session);
    i32::from(idle)
}

/// Answers whether a descriptor is ready: 1 where a byte can be written to it, and 2 where one can be read, else 0.
#[unsafe(no_mangle)]
pub extern "C" fn dsp_raw_is_ready(alloc: Global, engine: &mut Handle, fd: u32) -> i32
    ensures same { engine.new.slot.session ≡ engine.old.slot.session }
    ensures told { IfSome engine.old.slot.session (λ session.
        result ≡ ready_number (ready_told (device_of session.of.engine) (desk_of session.of.engine) fd)) }
    ensures none { engine.old.slot.session ≡ None → result ≡ call_fault_number Engine }
{
    let Some(session) = engine.take(alloc) else {
        return NOT_AN_ENGINE;
    };
    let ready = session.of.ready(fd);
    engine.put(session);
    ready_number(ready)
}

/// After how many frames a client can go on.
#[unsafe(no_mangle)]
pub extern "C" fn dsp_raw_frames_until(
    alloc: Global,
    engine: &mut Handle,
    fd: u32,
    bytes: u32,
) -> i64
    ensures same { engine.new.slot.session ≡ engine.old.slot.session }
    ensures told { IfSome engine.old.slot.session (λ session.
        IsWait (device_of session.of.engine) (desk_of session.of.engine) fd bytes result) }
    ensures none { engine.old.slot.session ≡ None → result ≡ call_fault_number Engine }
{
    let Some(session) = engine.take(alloc) else {
        return i64::from(NOT_AN_ENGINE);
    };
    let frames = session.of.frames_until(fd, bytes);
    engine.put(session);
    wait_number(frames)
}

// The bits of a descriptor, or a number below 0.
fn ready_number(told: Result<u32, i32>) -> i32
    ensures { result ≡ ready_number told }
{
    match told {
        Ok(bits) => bits.min(i32::MAX as u32) as i32,
        Err(number) => number,
    }
}

// A number of frames, or one below 0.
fn wait_number(told: Result<u64, i32>) -> i64
    ensures { result ≡ wait_number told }
{
    match told {
        Ok(frames) => frames.min(i64::MAX as u64) as i64,
        Err(number) => i64::from(number),
    }
}

// A number of bytes.
fn size_number(size: usize) -> i64
    requires { size < 2 ^ 42 }
    ensures { result ≡ pos size }
{
    size as i64
}

// How many bytes were spelled, or a number below 0.
fn saved_number(told: Result<usize, CallFault>) -> i64
    ensures { result ≡ saved_number told }
{
    match told {
        Ok(count) => count.min(i64::MAX as usize) as i64,
        Err(fault) => i64::from(call_fault_number(fault)),
    }
}

// Puts an answer where it belongs, and returns 0; or returns the number of why there is none.
fn tell<X: Copy>(told: Result<X, i32>, out: &mut X) -> i32
    ensures { IsTold told result out.old out.new }
{
    match told {
        Ok(numbers) => {
            *out = numbers;
            0
        }
        Err(number) => number,
    }
}
