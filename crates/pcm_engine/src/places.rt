//! Whether descriptors and groups that came from outside are those of the channels that are there.

ghost use Rattle.std.specs.Prelude.{◌≡◌, ◌↔◌, ◌==◌, true, not, slice_get};
ghost use Rattle.std.specs.List.{list_all, list_any};
ghost use Rattle.pcm_desk.specs.Channels.{is_held};
ghost use Rattle.pcm_desk.specs.RunStates.{is_unheld};
ghost use Rattle.pcm_desk.specs.Own.{is_waiting};
ghost use Rattle.pcm_engine.specs.Judged.{is_held_there, is_held_or_shut, play_waits, record_waits, some_is, StandOnce, WaitInGroups};

use pcm_desk::{Held, PlayBook, PlayState, RecordBook};
use pcm_feeder::Feeder;
use pcm_map::MapChannelOf;
use pcm_oss::Way;
use pcm_play::PlayChannelOf;
use pcm_record::RecordChannelOf;
use pcm_vchan::ParentOf;

/// Whether each descriptor is shut, or holds a channel that is there and may be held.
pub fn are_held_or_shut<B: Feeder>(parent: &ParentOf<B>, held: &[Option<Held>]) -> bool
    ensures { result ≡ list_all (is_held_or_shut parent.now) held.now }
{
    held.iter().all(|held| is_held_or_shut(parent, *held))
}

fn is_held_or_shut<B: Feeder>(parent: &ParentOf<B>, held: Option<Held>) -> bool
    ensures { result ≡ is_held_or_shut parent.now held }
{
    match held {
        Some(held) => is_held_there(parent, held),
        None => true,
    }
}

fn is_held_there<B: Feeder>(parent: &ParentOf<B>, held: Held) -> bool
    ensures { result ≡ is_held_there parent.now held }
{
    match held.way {
        Way::Play => plays_at(&parent.channels, held.slot),
        Way::Record => records_at(&parent.recorders, held.slot),
        Way::Map => maps_at(&parent.maps, held.slot),
    }
}

fn plays_at<B: Feeder>(channels: &[PlayChannelOf<B>], slot: usize) -> bool
    ensures { result ≡ some_is (λ channel. is_held channel.book.state) (slice_get channels.now slot) }
{
    match channels.get(slot) {
        Some(channel) => is_held(channel.book.state),
        None => false,
    }
}

fn records_at<B: Feeder>(channels: &[RecordChannelOf<B>], slot: usize) -> bool
    ensures { result ≡ some_is (λ channel. not (is_unheld channel.book.state)) (slice_get channels.now slot) }
{
    match channels.get(slot) {
        Some(channel) => !channel.is_free(),
        None => false,
    }
}

fn maps_at<B: Feeder>(channels: &[MapChannelOf<B>], slot: usize) -> bool
    ensures { result ≡ some_is (λ channel. not (is_unheld channel.book.state)) (slice_get channels.now slot) }
{
    match channels.get(slot) {
        Some(channel) => !channel.is_free(),
        None => false,
    }
}

// Whether a descriptor may hold a channel in this state.
fn is_held(state: PlayState) -> bool
    ensures { result ≡ is_held state }
{
    match state {
        PlayState::Free => false,
        PlayState::Draining { closed } => !closed,
        _ => true,
    }
}

/// Whether no two numbers of what descriptors hold are one, but that of those which are shut.
pub fn are_apart(numbers: &[u64]) -> bool
    ensures { (result ≡ true) ↔ StandOnce numbers.now }
{
    for fd in 0..numbers.len() {
        if numbers[fd] != 0 && is_among(&numbers[..fd], numbers[fd]) {
            return false;
        }
    }
    true
}

fn is_among(numbers: &[u64], number: u64) -> bool
    ensures { result ≡ list_any (λ its. its == number) numbers.now }
{
    numbers.iter().any(|&its| its == number)
}

/// Whether each member of a group that plays waits.
pub fn play_members_wait<B: Feeder>(groups: &[u32], channels: &[PlayChannelOf<B>]) -> bool
    ensures { (result ≡ true) ↔ WaitInGroups (λ channel. play_waits channel.book) groups.now channels.now }
{
    for slot in 0..groups.len() {
        if groups[slot] != 0 && !play_waits_at(channels, slot) {
            return false;
        }
    }
    true
}

/// And each that records.
pub fn record_members_wait<B: Feeder>(groups: &[u32], channels: &[RecordChannelOf<B>]) -> bool
    ensures { (result ≡ true) ↔ WaitInGroups (λ channel. record_waits channel.book) groups.now channels.now }
{
    for slot in 0..groups.len() {
        if groups[slot] != 0 && !record_waits_at(channels, slot) {
            return false;
        }
    }
    true
}

fn play_waits_at<B: Feeder>(channels: &[PlayChannelOf<B>], slot: usize) -> bool
    ensures { result ≡ some_is (λ channel. play_waits channel.book) (slice_get channels.now slot) }
{
    match channels.get(slot) {
        Some(channel) => play_waits(&channel.book),
        None => false,
    }
}

fn record_waits_at<B: Feeder>(channels: &[RecordChannelOf<B>], slot: usize) -> bool
    ensures { result ≡ some_is (λ channel. record_waits channel.book) (slice_get channels.now slot) }
{
    match channels.get(slot) {
        Some(channel) => record_waits(&channel.book),
        None => false,
    }
}

fn play_waits(book: &PlayBook) -> bool
    ensures { result ≡ play_waits book.now }
{
    is_waiting(book.state) && !book.opening.trigger
}

fn is_waiting(state: PlayState) -> bool
    ensures { result ≡ is_waiting state }
{
    matches!(state, PlayState::Setup | PlayState::Primed)
}

fn record_waits(book: &RecordBook) -> bool
    ensures { result ≡ record_waits book.now }
{
    book.is_setup() && !book.opening.trigger
}
