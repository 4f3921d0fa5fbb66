//! What clients ask by their descriptors.

ghost use Rattle.std.specs.Borrow.{sem};
ghost use Rattle.std.specs.Prelude.{◌≡◌, ◌<◌, ◌≤◌, [], length, slice_index_or};
ghost use Rattle.pcm_sequence.specs.Fixed.{fixed_len};
ghost use Rattle.pcm_feeder.specs.Filters.{Filters};
ghost use Rattle.pcm_oss.specs.declared.event.Event.TheVariants.{Open, Write, Poke, Read, Ioctl, Close};
ghost use Rattle.pcm_oss.specs.Replies.{bytes_due};
ghost use Rattle.pcm_wave.specs.declared.pool.Source.TheVariants.{Inline};
ghost use Rattle.pcm_oss.specs.declared.reply.TheConstants.{REPLY_BYTES};
ghost use Rattle.pcm_desk.specs.Device.{seen};
ghost use Rattle.pcm_desk.specs.Own.{HoldApart};
ghost use Rattle.pcm_vchan.specs.Lending.{LendsMapAt};
ghost use Rattle.pcm_vchan.specs.Parents.{map_channels, untouched, AreServed};
ghost use Rattle.pcm_engine.specs.Answered.{AnswersBy, AnswersWith, AsksBy, IsCalledBy, IsServed, IsSlotThere, LeavesParent, TakesBy};
ghost use Rattle.pcm_engine.specs.Brought.{IsAllowed};
ghost use Rattle.pcm_engine.specs.Desks.{front_due, desk_with, turn_on, ioctl_call, ClosesHeld, ReadsKept};
ghost use Rattle.pcm_engine.specs.Invariants.{AreOwn};
ghost use Rattle.pcm_engine.specs.Steps.{poked_by};

use crate::descriptors::Descriptors;
use pcm_desk::{Held, Here};
use pcm_feeder::{Feeder, Tables};
use pcm_format::Settings;
use pcm_map::MapChannelOf;
use pcm_oss::{Answer, Errno, ReplyBuf, Request, Way};
use pcm_vchan::ParentOf;

/// Opens a descriptor on the least free slot of its way.
pub fn open<B: Feeder>(
    parent: &mut ParentOf<B>,
    tables: &Tables,
    descriptors: &mut Descriptors,
    fd: u8,
    way: Way,
    settings: Settings,
) -> Result<Answer, Errno>
    requires within { IsAllowed (seen tables.now parent.old.device) (Open fd way settings) }
    requires served { AreServed B.kind B.kept tables.now parent.old }
    ensures { AnswersBy B.kind B.kept tables.now (turn_on (Open fd way settings))
        parent.old descriptors.old parent.new descriptors.new result }
{
    descriptors.shut(fd)?;
    let number = parent.open_slot(tables, way, settings)?;
    let slot = parent.place_of(way, number);
    descriptors.set(fd, Some(Held { way, slot }));
    Ok(Answer::Number(number as u32))
}

/// Writes to the channel that a descriptor holds, where the mix and the device are. One that records takes no bytes.
pub fn write<B: Feeder>(
    parent: &mut ParentOf<B>,
    descriptors: &Descriptors,
    fd: u8,
    bytes: &[u8],
    here: Here,
) -> Result<Answer, Errno>
    requires called { IsCalledBy B.kind B.kept (Write fd Inline 0 (length bytes.now)) parent.old descriptors.now }
    ensures { (filters : Filters) → AsksBy B.kind B.kept filters here (Write fd Inline 0 (length bytes.now)) parent.old descriptors.now
        → AnswersWith B.kind B.kept filters bytes.now untouched (turn_on (Write fd Inline 0 (length bytes.now)))
        parent.old descriptors.now parent.new descriptors.now result }
{
    let slot = descriptors.slot_of(fd, Way::Play)?;
    parent.play(slot).write(bytes, here)
}

/// Writes into the area of the channel that a descriptor holds, from its byte `offset` on. Only a mapped one has an area.
pub fn poke<B: Feeder>(
    parent: &mut ParentOf<B>,
    descriptors: &Descriptors,
    fd: u8,
    offset: u32,
    bytes: &[u8],
) -> Result<Answer, Errno>
    requires called { IsCalledBy B.kind B.kept (Poke fd offset 0 (length bytes.now)) parent.old descriptors.now }
    ensures { (filters : Filters) → AnswersWith B.kind B.kept filters []
        (poked_by fd offset bytes.now (desk_with parent.old descriptors.now)) (turn_on (Poke fd offset 0 (length bytes.now)))
        parent.old descriptors.now parent.new descriptors.now result }
{
    let slot = descriptors.slot_of(fd, Way::Map)?;
    mapped(parent, slot).poke(offset, bytes)
}

// Reads from the channel that a descriptor holds, into the front of `out`. One that plays has nothing to read.
fn read<B: Feeder>(
    parent: &mut ParentOf<B>,
    descriptors: &Descriptors,
    fd: u8,
    out: &mut [u8],
) -> Result<Answer, Errno>
    requires apart { HoldApart (desk_with parent.old descriptors.now) }
    requires own { AreOwn parent.old }
    ensures takes { (filters : Filters) → TakesBy B.kind B.kept filters [] untouched (turn_on (Read fd (length out.old)))
        parent.old descriptors.now parent.new descriptors.now result }
    ensures within { bytes_due result ≤ length out.old }
    ensures length { length out.new ≡ length out.old }
    ensures bytes { ReadsKept parent.old descriptors.now fd (length out.old) (front_due result out.new) }
{
    let slot = descriptors.slot_of(fd, Way::Record)?;
    parent.recorder(slot).read(out)
}

/// Reads at most `len` bytes from the channel that a descriptor holds, and keeps what was read as the reply. `bytes` holds it
/// meanwhile.
pub fn answer_read<B: Feeder>(
    parent: &mut ParentOf<B>,
    descriptors: &Descriptors,
    fd: u8,
    len: u32,
    bytes: &mut [u8],
    reply: &mut ReplyBuf,
)
    requires called { IsCalledBy B.kind B.kept (Read fd len) parent.old descriptors.now }
    requires room { length bytes.old ≡ REPLY_BYTES }
    ensures takes { (filters : Filters) → TakesBy B.kind B.kept filters [] untouched (turn_on (Read fd len))
        parent.old descriptors.now parent.new descriptors.now reply.new.result }
    ensures bytes { ReadsKept parent.old descriptors.now fd len reply.new.bytes }
{
    let answer = read(parent, descriptors, fd, &mut bytes[..len as usize]);
    reply.keep(answer, bytes);
}

/// Asks something of the channel that a descriptor holds, as of one of no group.
pub fn ask<B: Feeder>(
    parent: &mut ParentOf<B>,
    tables: &Tables,
    descriptors: &Descriptors,
    fd: u8,
    request: Request,
    here: Here,
) -> Result<Answer, Errno>
    requires asks { AsksBy B.kind B.kept tables.now here (Ioctl fd request) parent.old descriptors.now }
    ensures { AnswersBy B.kind B.kept tables.now (ioctl_call fd request)
        parent.old descriptors.now parent.new descriptors.now result }
{
    let held = descriptors.holding(fd)?;
    match held.way {
        Way::Play => parent.play(held.slot).ioctl(tables, request, here),
        Way::Record => parent.recorder(held.slot).ioctl(tables, request),
        Way::Map => mapped(parent, held.slot).ioctl(tables, request),
    }
}

/// Closes a descriptor, which others may open then. Its channel leaves its group.
pub fn close<B: Feeder>(
    parent: &mut ParentOf<B>,
    descriptors: &mut Descriptors,
    fd: u8,
    here: Here,
) -> Result<Answer, Errno>
    requires called { IsCalledBy B.kind B.kept (Close fd) parent.old descriptors.old }
    ensures { (filters : Filters) → AsksBy B.kind B.kept filters here (Close fd) parent.old descriptors.old
        → AnswersBy B.kind B.kept filters (turn_on (Close fd)) parent.old descriptors.old parent.new descriptors.new result }
{
    let held = descriptors.holding(fd)?;
    let answer = close_channel(parent, held, here);
    let mut groups = descriptors.groups();
    groups.leave(held.way, held.slot);
    descriptors.regroup(groups);
    descriptors.set(fd, None);
    Ok(answer)
}

// Closes a channel, whatever its way.
fn close_channel<B: Feeder>(parent: &mut ParentOf<B>, held: Held, here: Here) -> Answer
    requires there { IsSlotThere held parent.old }
    requires served { IsServed B.kind B.kept parent.old }
    ensures answer { result ≡ Answer.Done }
    ensures leaves { (filters : Filters) → LeavesParent B.kind B.kept filters [] untouched parent.old parent.new }
    ensures desk { ClosesHeld B.kind B.kept here held parent.old parent.new }
{
    match held.way {
        Way::Play => {
            parent.play(held.slot).close(here);
            Answer::Done
        }
        Way::Record => {
            parent.recorder(held.slot).close();
            Answer::Done
        }
        Way::Map => {
            mapped(parent, held.slot).close();
            Answer::Done
        }
    }
}

// Lends a mapped channel by its place among these, which is what a descriptor holds.
fn mapped<B: Feeder>(parent: &mut ParentOf<B>, place: usize) -> &mut MapChannelOf<B>
    requires { place < fixed_len parent.old.maps }
    ensures* writes_back { sem 𝓛 (LendsMapAt B.row parent.entry place result) }
    ensures value { result.now ≡ slice_index_or (map_channels parent.old) place result.now }
{
    let number = parent.number_of(Way::Map, place);
    parent.mapped(number)
}
