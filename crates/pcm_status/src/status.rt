//! The status of a channel and of a slot.

ghost use Rattle.std.specs.Prelude.{◌≡◌, ◌<◌, IfSome};
ghost use Rattle.pcm_desk.specs.Device.{play_slots};
ghost use Rattle.pcm_oss.specs.Fragments.{AreFragments};
ghost use Rattle.pcm_oss.specs.declared.event.Way.TheVariants.{Play};
ghost use Rattle.pcm_rate.specs.Rates.{IsRatio};
ghost use Rattle.pcm_engine.specs.Engines.{AreReady, desk_of, device_of};
ghost use Rattle.pcm_status.specs.Asked.{CanAskOf, HasSlot};
ghost use Rattle.pcm_status.specs.Statuses as statuses;
ghost use Rattle.pcm_status.specs.Statuses.{other_run, play_run, still_given, taken_slot};

use pcm_desk::{Held, Opening, PlayBook, PlayState, RunState};
use pcm_engine::EngineOf;
use pcm_feeder::Feeder;
use pcm_format::Settings;
use pcm_oss::{Fragments, Way};
use pcm_rate::Rate;

/// Where the run of a channel stands.
#[derive(Clone, Copy, Debug, PartialEq, Eq)]
pub enum RunStatus {
    /// Nothing of a run is there.
    Setup,
    /// Written to, and not started.
    Primed,
    /// Started.
    Running,
    /// Nothing more is taken until what was written has played.
    Draining,
}

/// What is set of the channel of a descriptor, and where it stands.
#[derive(Clone, Copy, Debug, PartialEq, Eq)]
pub struct ChannelStatus {
    pub way: Way,
    /// The number of its slot.
    pub slot: usize,
    pub settings: Settings,
    pub fragments: Fragments,
    /// Whether the channel may start by itself, or by a post.
    pub trigger: bool,
    /// The volume that its client set: 0 of one that records.
    pub volume: u32,
    /// The number of its group: 0 is none.
    pub group: u32,
    pub run: RunStatus,
}

/// Who has a slot.
#[derive(Clone, Copy, Debug, PartialEq, Eq)]
pub enum SlotState {
    /// An open would take it.
    Free,
    /// A descriptor holds it.
    Held,
    /// No descriptor holds it any more, and it isn't free before what was written has played.
    Closing,
}

/// The status of a slot.
#[derive(Clone, Copy, Debug, PartialEq, Eq)]
pub struct SlotStatus {
    pub state: SlotState,
    /// How many frames of the mix it still gives of what was written: none of a slot that doesn't play.
    pub frames: u64,
}

/// The status of the channel of a descriptor, if it is open.
pub fn client_status<B: Feeder>(engine: &EngineOf<B>, fd: u8) -> Option<ChannelStatus>
    requires { CanAskOf B.kind B.kept engine.now fd }
    ensures fragments { IfSome result (λ status. AreFragments status.fragments) }
    ensures is { result ≡ statuses.client_status (device_of engine.now) (desk_of engine.now) fd }
{
    let held = engine.held(fd)?;
    Some(held_status(engine, held))
}

// The status of a channel that a descriptor holds.
fn held_status<B: Feeder>(engine: &EngineOf<B>, held: Held) -> ChannelStatus
    requires { HasSlot B.kind B.kept engine.now held.way held.slot }
    ensures fragments { AreFragments result.fragments }
    ensures is { result ≡ statuses.held_status (device_of engine.now) (desk_of engine.now) held }
{
    let slot = engine.number_of(held.way, held.slot);
    let group = engine.group_of(held);
    match held.way {
        Way::Play => {
            let book = engine.play_book(held.slot);
            let run = play_run(book.state);
            channel_status(held.way, slot, book.opening, book.volume, group, run)
        }
        Way::Record => {
            let book = engine.record_book(held.slot);
            let run = other_run(book.state);
            channel_status(held.way, slot, book.opening, 0, group, run)
        }
        Way::Map => {
            let book = engine.map_book(held.slot);
            let run = other_run(book.state);
            channel_status(held.way, slot, book.opening, book.volume, group, run)
        }
    }
}

// A channel's own numbers.
fn channel_status(
    way: Way,
    slot: usize,
    opening: Opening,
    volume: u32,
    group: u32,
    run: RunStatus,
) -> ChannelStatus
    ensures { result ≡ statuses.channel_status way slot opening volume group run }
{
    ChannelStatus {
        way,
        slot,
        settings: opening.settings,
        fragments: opening.fragments,
        trigger: opening.trigger,
        volume,
        group,
        run,
    }
}

/// The status of a slot of a way, by its place among these.
pub fn slot_status<B: Feeder>(engine: &EngineOf<B>, way: Way, place: usize) -> SlotStatus
    requires { HasSlot B.kind B.kept engine.now way place }
    ensures { result ≡ statuses.slot_status (device_of engine.now) (desk_of engine.now) way place }
{
    match way {
        Way::Play => play_slot_status(engine, place),
        Way::Record => taken_slot(engine.record_book(place).is_free()),
        Way::Map => taken_slot(engine.map_book(place).is_free()),
    }
}

// The status of a slot that plays.
fn play_slot_status<B: Feeder>(engine: &EngineOf<B>, slot: usize) -> SlotStatus
    requires ready { AreReady B.kind B.kept engine.now }
    requires there { slot < play_slots (device_of engine.now) }
    ensures { result ≡ statuses.slot_status (device_of engine.now) (desk_of engine.now) Play slot }
{
    let book = engine.play_book(slot);
    let state = match book.state {
        PlayState::Free => SlotState::Free,
        PlayState::Draining { closed: true } => SlotState::Closing,
        _ => SlotState::Held,
    };
    let frames = if book.is_started() {
        still_given(&book, engine.play_rate(slot))
    } else {
        0
    };
    SlotStatus { state, frames }
}

// How many frames of the mix a book gives still, if no more is written.
fn still_given(book: &PlayBook, rate: Rate) -> u64
    requires { IsRatio rate }
    ensures { result ≡ still_given rate book.now }
{
    book.giving(rate, u64::MAX)
}

// The status of a slot that doesn't play.
fn taken_slot(free: bool) -> SlotStatus
    ensures { result ≡ record { state = taken_slot free; frames = 0 } }
{
    let state = if free {
        SlotState::Free
    } else {
        SlotState::Held
    };
    SlotStatus { state, frames: 0 }
}

fn play_run(state: PlayState) -> RunStatus
    ensures { result ≡ play_run state }
{
    match state {
        PlayState::Free | PlayState::Setup => RunStatus::Setup,
        PlayState::Primed => RunStatus::Primed,
        PlayState::Running => RunStatus::Running,
        PlayState::Draining { .. } => RunStatus::Draining,
    }
}

// The same of a channel that records, and of a mapped one.
fn other_run(state: RunState) -> RunStatus
    ensures { result ≡ other_run state }
{
    match state {
        RunState::Free | RunState::Setup => RunStatus::Setup,
        RunState::Running => RunStatus::Running,
    }
}
