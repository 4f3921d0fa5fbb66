//! Whether counts that came from outside are where the mix and the device are.

ghost use Rattle.std.specs.Prelude.{◌≡◌, ◌≤◌, ◌<◌, ◌*◌, ◌^◌};
ghost use Rattle.std.specs.List.{list_all};
ghost use Rattle.pcm_oss.specs.declared.fragments.TheConstants.{RING_BYTES};
ghost use Rattle.pcm_desk.specs.PlaySafe.{CanEnd};
ghost use Rattle.pcm_engine.specs.declared.limits.TheConstants.{LIFE};
ghost use Rattle.pcm_engine.specs.Judged.{map_keeps_pace, play_is_here, play_is_in_place, play_keeps_pace, record_keeps_pace};

use crate::limits::BYTES_FOR_FRAME;
use pcm_desk::{Here, MapBook, PlayBook, RecordBook};
use pcm_feeder::Feeder;
use pcm_map::MapChannelOf;
use pcm_oss::RING_BYTES;
use pcm_play::PlayChannelOf;
use pcm_rate::Rate;
use pcm_record::RecordChannelOf;

/// Whether all channels that play are where the mix and the device are.
pub fn are_in_place<B: Feeder>(channels: &[PlayChannelOf<B>], here: Here) -> bool
    requires { here.mixed < 2 ^ 53 }
    ensures { result ≡ list_all (play_is_in_place here) channels.now }
{
    channels
        .iter()
        .all(|channel| play_is_in_place(channel, here))
}

/// Whether no recording runs ahead of what the device was given.
pub fn recordings_keep_pace<B: Feeder>(channels: &[RecordChannelOf<B>], handed: u64) -> bool
    requires { handed ≤ LIFE }
    ensures { result ≡ list_all (λ channel. record_keeps_pace handed (RING_BYTES * handed) channel.book) channels.now }
{
    let most = u64::from(RING_BYTES) * handed;
    channels
        .iter()
        .all(|channel| record_keeps_pace(&channel.book, handed, most))
}

/// Whether no mapped run runs ahead of what is mixed.
pub fn maps_keep_pace<B: Feeder>(channels: &[MapChannelOf<B>], mixed: u64) -> bool
    ensures { result ≡ list_all (λ channel. map_keeps_pace mixed channel.book) channels.now }
{
    channels
        .iter()
        .all(|channel| map_keeps_pace(&channel.book, mixed))
}

// Whether a channel that plays is where the mix and the device are.
fn play_is_in_place<B: Feeder>(channel: &PlayChannelOf<B>, here: Here) -> bool
    requires { here.mixed < 2 ^ 53 }
    ensures { result ≡ play_is_in_place here channel.now }
{
    let book = &channel.book;
    let rate = channel.path.chain.plan().rate();
    play_keeps_pace(book, here.mixed)
        && book.written <= u64::MAX - book.done
        && play_is_here(book, rate, here)
}

// Whether no count of it runs ahead of what is mixed.
fn play_keeps_pace(book: &PlayBook, mixed: u64) -> bool
    requires { mixed < 2 ^ 53 }
    ensures { result ≡ play_keeps_pace mixed book.now }
{
    book.given <= mixed && book.done <= BYTES_FOR_FRAME * (mixed - book.given)
}

// Whether it started no later than here, and where it drains, isn't over.
fn play_is_here(book: &PlayBook, rate: Rate, here: Here) -> bool
    requires { CanEnd rate book.now }
    ensures { result ≡ play_is_here rate here book.now }
{
    (!book.is_started() || book.last <= here.mixed)
        && (!book.is_draining() || book.settled(rate, here).is_draining())
}

// Whether it captured no more frames than the device was given, and kept at most so many bytes.
fn record_keeps_pace(book: &RecordBook, handed: u64, most: u64) -> bool
    ensures { result ≡ record_keeps_pace handed most book.now }
{
    book.captured <= handed && book.kept <= most
}

fn map_keeps_pace(book: &MapBook, mixed: u64) -> bool
    ensures { result ≡ map_keeps_pace mixed book.now }
{
    book.given <= mixed
}
