//! After how many frames a client can go on.

ghost use Rattle.std.specs.Prelude.{◌≡◌, ◌<◌, ◌+◌, ◌^◌};
ghost use Rattle.pcm_desk.specs.Channels.{mixing, play_rate_at};
ghost use Rattle.pcm_desk.specs.Desk.{held_by, play_at, record_at};
ghost use Rattle.pcm_oss.specs.Fragments.{AreFragments};
ghost use Rattle.pcm_desk.specs.declared.here.Here.{Here};
ghost use Rattle.pcm_desk.specs.Device.{DeviceSeen, here_at};
ghost use Rattle.pcm_rate.specs.Rates.{IsRatio};
ghost use Rattle.pcm_desk.specs.PlayBooks.{write_turn};
ghost use Rattle.pcm_desk.specs.RecordBooks.{read_turn};
ghost use Rattle.pcm_engine.specs.Engines.{AreReady, desk_of, device_of};
ghost use Rattle.pcm_engine.specs.Views.{HasPlayTaken, HasRecordTaken};
ghost use Rattle.pcm_status.specs.Asked.{CanAskOf, HoldsIn, WaitEnds};
ghost use Rattle.pcm_status.specs.Statuses.{counts};
ghost use Rattle.pcm_status.specs.Waits.{IsMetAt, WaitHere, WaitOf, desk_after, goes_on_after};

use crate::limits::FRAMES_MOST;
use pcm_desk::{Held, Here, PlayBook, RecordBook};
use pcm_engine::EngineOf;
use pcm_feeder::Feeder;
use pcm_oss::{Errno, Way};
use pcm_rate::Rate;

/// After how many frames of the device a write of `bytes` bytes is taken whole, or as many can be read, if nothing else happens
/// meanwhile: 0 where it is so now.
///
/// # Errors
///
/// `BadF` where the descriptor isn't open, `Inval` where its channel is mapped, which waits for nothing. `Busy` where it isn't so after `FRAMES_MOST`
/// frames either: nothing takes or brings frames, or `bytes` never fit.
pub fn frames_until<B: Feeder>(engine: &EngineOf<B>, fd: u8, bytes: u32) -> Result<u64, Errno>
    requires { CanAskOf B.kind B.kept engine.now fd }
    ensures { WaitOf (device_of engine.now) (desk_of engine.now) fd bytes (held_by (desk_of engine.now) fd) result }
{
    let Some(held) = engine.held(fd) else {
        return Err(Errno::BadF);
    };
    match held.way {
        Way::Play | Way::Record => wait_of(engine, fd, held, bytes),
        Way::Map => Err(Errno::Inval),
    }
}

// After how many frames the client of a channel can go on.
fn wait_of<B: Feeder>(engine: &EngineOf<B>, fd: u8, held: Held, bytes: u32) -> Result<u64, Errno>
    requires holds { HoldsIn B.kind B.kept engine.now fd held }
    ensures { WaitHere (device_of engine.now) (desk_of engine.now) fd bytes result }
{
    if goes_on_after(engine, fd, held, bytes, 0) {
        return Ok(0);
    }
    if !goes_on_after(engine, fd, held, bytes, FRAMES_MOST as u32) {
        return Err(Errno::Busy);
    }
    Ok(first_between(engine, fd, held, bytes) as u64)
}

// The least number found between those after which a client can't go on and those after which it can.
fn first_between<B: Feeder>(engine: &EngineOf<B>, fd: u8, held: Held, bytes: u32) -> u32
    requires { WaitEnds B.kind B.kept engine.now fd held bytes }
    ensures { IsMetAt (device_of engine.now) (desk_of engine.now) fd bytes result }
{
    let mut before = 0;
    let mut after = FRAMES_MOST as u32;
    while after - before > 1 {
        let middle = before + (after - before) / 2;
        if goes_on_after(engine, fd, held, bytes, middle) {
            after = middle;
        } else {
            before = middle;
        }
    }
    after
}

// Whether a client can go on after `frames` frames.
fn goes_on_after<B: Feeder>(
    engine: &EngineOf<B>,
    fd: u8,
    held: Held,
    bytes: u32,
    frames: u32,
) -> bool
    requires holds { HoldsIn B.kind B.kept engine.now fd held }
    ensures { result ≡ goes_on_after (device_of engine.now) (desk_of engine.now) fd bytes frames }
{
    match held.way {
        Way::Play => takes_whole(play_book_after(engine, held.slot, frames), bytes),
        Way::Record => has_whole(record_book_after(engine, held.slot, frames), bytes),
        Way::Map => false,
    }
}

// The book of a slot that plays, after `frames` frames.
fn play_book_after<B: Feeder>(engine: &EngineOf<B>, slot: usize, frames: u32) -> PlayBook
    requires { HasPlayTaken B.kind B.kept engine.now slot }
    ensures is { result ≡ play_at (device_of engine.now)
        (desk_after (device_of engine.now) (desk_of engine.now) frames) slot }
    ensures fragments { AreFragments result.opening.fragments }
{
    let book = engine.play_book(slot);
    if frames == 0 {
        return book;
    }
    let rate = engine.play_rate(slot);
    let mixed = engine.here().mixed;
    let after = here_after(engine, frames);
    book_mixed(book, rate, mixed, after.mixed - mixed).settled(rate, after)
}

// A book once `more` frames more were mixed.
fn book_mixed(book: PlayBook, rate: Rate, mixed: u64, more: u64) -> PlayBook
    requires ratio { IsRatio rate }
    requires given { book.given + more < 2 ^ 64 }
    requires mixed { mixed + more < 2 ^ 64 }
    ensures is { (device : DeviceSeen) → rate ≡ play_rate_at device book → result ≡ mixing device mixed more book }
    ensures opening { result.opening ≡ book.opening }
    ensures done { result.done ≡ book.done }
    ensures written { result.written ≡ book.written }
{
    if more > 0 {
        book.refilled(rate, mixed, more)
    } else {
        book
    }
}

// Where the mix and the device are after `frames` frames.
fn here_after<B: Feeder>(engine: &EngineOf<B>, frames: u32) -> Here
    requires ready { AreReady B.kind B.kept engine.now }
    ensures is { result ≡ here_at (device_of engine.now) ((desk_of engine.now).handed + frames) }
    ensures few { result.mixed < 2 ^ 62 }
{
    let handed = engine.handed() + frames as u64;
    Here {
        mixed: engine.parent_rate().need(handed) as u64,
        passed: engine.device().passed(handed),
    }
}

// The book of a slot that records, after `frames` frames.
fn record_book_after<B: Feeder>(engine: &EngineOf<B>, slot: usize, frames: u32) -> RecordBook
    requires { HasRecordTaken B.kind B.kept engine.now slot }
    ensures { result ≡ record_at (device_of engine.now)
        (desk_after (device_of engine.now) (desk_of engine.now) frames) slot }
{
    let book = engine.record_book(slot);
    if frames == 0 {
        return book;
    }
    if !book.is_running() {
        return book;
    }
    book.captured(engine.record_rate(slot), frames as u64)
}

/// Whether a write of `bytes` bytes would be taken whole.
pub fn takes_whole(book: PlayBook, bytes: u32) -> bool
    requires fragments { AreFragments book.opening.fragments }
    ensures { (here : Here) → result ≡ counts bytes (write_turn here bytes book).reply }
{
    let open = !book.is_free() && !book.is_draining();
    let frame_bytes = u128::from(book.opening.settings.frame_bytes() as u64);
    let fill = u128::from(book.written).saturating_sub(u128::from(book.eaten) * frame_bytes);
    let free = u128::from(book.opening.fragments.size()).saturating_sub(fill);
    open && u128::from(bytes) <= free
}

/// Whether `bytes` bytes could be read.
pub fn has_whole(book: RecordBook, bytes: u32) -> bool
    ensures { result ≡ counts bytes (read_turn bytes book).reply }
{
    u64::from(bytes) <= book.kept.saturating_sub(book.read)
}
