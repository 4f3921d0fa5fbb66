//! What the start of a group starts: its members that play and those that record, in the order of their slots.

ghost use Rattle.std.specs.Prelude.{◌≡◌, ◌||◌, not, true};
ghost use Rattle.pcm_group.specs.Groups.{all_in};
ghost use Rattle.pcm_desk.specs.Here.{IsHere};
ghost use Rattle.pcm_desk.specs.PlayBooks.{play_is_ready};
ghost use Rattle.pcm_bus.specs.Slots.{play_books_of};
ghost use Rattle.pcm_vchan.specs.Starts.{AreAsked, MayRecord, MayStart, Records, Starts};

use crate::walk::Visit;
use pcm_desk::{Here, PLAY_BIT, RECORD_BIT};
use pcm_feeder::{Feeder, Tables};
use pcm_group::Groups;
use pcm_oss::{Request, Way};
use pcm_play::PlayChannelOf;
use pcm_record::RecordChannelOf;

// What sets the trigger of a member on, whichever way it goes.
const START: Request = Request::SetTrigger(PLAY_BIT + RECORD_BIT);

/// Whether each member of a group that plays may start at any moment.
pub fn are_ready<B: Feeder>(channels: &[PlayChannelOf<B>], groups: &Groups, group: u32) -> bool
    requires { AreAsked group channels.now }
    ensures { result ≡ all_in group play_is_ready groups.now.play (play_books_of channels.now) }
{
    for slot in 0..channels.len() {
        let member = groups.of(Way::Play, slot) == group;
        if !is_ready_if(member, &channels[slot]) {
            return false;
        }
    }
    true
}

// Whether a channel may start at any moment, if it is a member.
fn is_ready_if<B: Feeder>(member: bool, channel: &PlayChannelOf<B>) -> bool
    ensures { result ≡ (not member || play_is_ready channel.now.book) }
{
    !member || channel.is_ready()
}

/// The start of a group, where the mix and the device are: a channel of a member starts, and others stay.
#[derive(Clone, Copy)]
pub(crate) struct GroupStart<'a> {
    pub tables: &'a Tables,
    pub groups: &'a Groups,
    pub group: u32,
    pub here: Here,
    ghost place: { IsHere here },
}

impl<'a, B: Feeder> Visit<PlayChannelOf<B>> for GroupStart<'a> {
    ghost use Rattle.pcm_vchan.specs.Starts.{MayStart, Starts, is_in};

    ghost may = { λ start. MayStart B.kind start.tables.now start.here };

    ghost leaves = { λ start slot. Starts B.kind B.kept start.tables.now start.here (is_in start.groups.now.play start.group slot) };

    fn visit(&self, slot: usize, channel: &mut PlayChannelOf<B>) {
        if self.groups.of(Way::Play, slot) == self.group {
            start(channel, self.tables, self.here);
        }
    }
}

// Starts a channel, which may start.
fn start<B: Feeder>(channel: &mut PlayChannelOf<B>, tables: &Tables, here: Here)
    requires here { IsHere here }
    requires due { MayStart B.kind tables.now here channel.old }
    ensures started { Starts B.kind B.kept tables.now here true channel.old channel.new }
{
    // A member waits, and so its trigger is never refused.
    let _ = channel.ioctl(tables, START, here);
}

impl<'a, B: Feeder> Visit<RecordChannelOf<B>> for GroupStart<'a> {
    ghost use Rattle.pcm_vchan.specs.Starts.{AreAsked, MayRecord, Records, is_in};

    ghost may = { λ start. MayRecord B.kind start.tables.now };

    ghost leaves = { λ start slot. Records B.kind B.kept start.tables.now (is_in start.groups.now.recording start.group slot) };

    fn visit(&self, slot: usize, channel: &mut RecordChannelOf<B>) {
        if self.groups.of(Way::Record, slot) == self.group {
            record(channel, self.tables);
        }
    }
}

// Starts a channel that records.
fn record<B: Feeder>(channel: &mut RecordChannelOf<B>, tables: &Tables)
    requires due { MayRecord B.kind tables.now channel.old }
    ensures started { Records B.kind B.kept tables.now true channel.old channel.new }
{
    // The trigger of a channel that records is never refused.
    let _ = channel.ioctl(tables, START);
}
