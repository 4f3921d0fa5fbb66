//! The events that are drawn, each kind by itself.

ghost use Rattle.std.specs.Prelude.{◌≡◌, ◌≤◌};
ghost use Rattle.pcm_desk.specs.Events.{frames_taken};
ghost use Rattle.pcm_soak.specs.Events.{drawn_event, interrupt_event, order_event, order_for, question_event, question_for, read_event, volume_event, write_event};

use crate::draws::Draws;
use pcm_oss::{Event, Request};
use pcm_wave::Source;

// The frames that an event takes.
pub(crate) fn frames_of(event: Event) -> u32
    ensures { result ≡ frames_taken event }
{
    match event {
        Event::Intr { frames } => frames,
        _ => 0,
    }
}

// One more event.
#[tactic(auto, unfolding(crate::specs::Events::drawn_event))]
pub(crate) fn drawn_event(draws: &mut Draws) -> Event
    ensures event { result ≡ (drawn_event draws.old.state).value }
    ensures state { draws.new.state ≡ (drawn_event draws.old.state).state }
    ensures few { frames_taken result ≤ 256 }
{
    match draws.below(16) {
        0..=7 => write_event(draws),
        8..=11 => interrupt_event(draws),
        12 => read_event(draws),
        13 => question_event(draws),
        14 => volume_event(draws),
        _ => order_event(draws),
    }
}

// A write of one of the four that play.
fn write_event(draws: &mut Draws) -> Event
    ensures event { result ≡ (write_event draws.old.state).value }
    ensures state { draws.new.state ≡ (write_event draws.old.state).state }
{
    let fd = draws.below(4) as u8;
    let at = draws.below(4096);
    let len = draws.below(4097);
    let source = Source::Inline;
    Event::Write {
        fd,
        source,
        at,
        len,
    }
}

fn interrupt_event(draws: &mut Draws) -> Event
    ensures event { result ≡ (interrupt_event draws.old.state).value }
    ensures state { draws.new.state ≡ (interrupt_event draws.old.state).state }
{
    let frames = 1 + draws.below(256);
    Event::Intr { frames }
}

// A read of one of the two that record.
fn read_event(draws: &mut Draws) -> Event
    ensures event { result ≡ (read_event draws.old.state).value }
    ensures state { draws.new.state ≡ (read_event draws.old.state).state }
{
    let fd = 4 + draws.below(2) as u8;
    let len = draws.below(4097);
    Event::Read { fd, len }
}

// A question to one of all six.
fn question_event(draws: &mut Draws) -> Event
    ensures event { result ≡ (question_event draws.old.state).value }
    ensures state { draws.new.state ≡ (question_event draws.old.state).state }
{
    let fd = draws.below(6) as u8;
    let request = question_for(draws.below(4));
    Event::Ioctl { fd, request }
}

fn question_for(choice: u32) -> Request
    ensures { result ≡ question_for choice }
{
    match choice {
        0 => Request::GetError,
        1 => Request::GetOSpace,
        2 => Request::GetOPtr,
        _ => Request::GetODelay,
    }
}

// A volume for one that plays.
fn volume_event(draws: &mut Draws) -> Event
    ensures event { result ≡ (volume_event draws.old.state).value }
    ensures state { draws.new.state ≡ (volume_event draws.old.state).state }
{
    let fd = draws.below(4) as u8;
    let left = draws.below(101);
    let right = draws.below(101);
    let request = Request::SetPlayVol(left + 256 * right);
    Event::Ioctl { fd, request }
}

// An order for one that plays.
fn order_event(draws: &mut Draws) -> Event
    ensures event { result ≡ (order_event draws.old.state).value }
    ensures state { draws.new.state ≡ (order_event draws.old.state).state }
{
    let fd = draws.below(4) as u8;
    let request = order_for(draws.below(8));
    Event::Ioctl { fd, request }
}

fn order_for(choice: u32) -> Request
    ensures { result ≡ order_for choice }
{
    match choice {
        0 => Request::Halt,
        1 => Request::Sync,
        2 => Request::Post,
        3 => Request::SetTrigger(2),
        4 => Request::SetTrigger(0),
        5 => Request::SetTrigger(2),
        6 => Request::GetCaps,
        _ => Request::Speed(3999),
    }
}
