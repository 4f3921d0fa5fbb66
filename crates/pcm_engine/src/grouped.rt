//! What clients ask that groups have a part in.

ghost use Rattle.std.specs.Prelude.{◌≡◌};
ghost use Rattle.pcm_oss.specs.declared.event.Event.TheVariants.{Ioctl, Join, StartGroup};
ghost use Rattle.pcm_desk.specs.Channels.{rests};
ghost use Rattle.pcm_desk.specs.Desk.{channel_at};
ghost use Rattle.pcm_desk.specs.Device.{DeviceSeen};
ghost use Rattle.pcm_engine.specs.declared.descriptors.Descriptors.{Descriptors};
ghost use Rattle.pcm_engine.specs.Answered.{AnswersBy, AsksBy, IsSlotThere};
ghost use Rattle.pcm_engine.specs.Desks.{desk_with, turn_on};

use crate::clients::ask;
use crate::descriptors::{Descriptors, member_refusal};
use pcm_desk::{Held, Here};
use pcm_feeder::{Feeder, Tables};
use pcm_group::may_join;
use pcm_oss::{Answer, Errno, Request, Way};
use pcm_vchan::ParentOf;

/// Asks something of the channel that a descriptor holds. A sync leaves its group first, and the trigger of a member is refused.
pub fn ioctl<B: Feeder>(
    parent: &mut ParentOf<B>,
    tables: &Tables,
    descriptors: &mut Descriptors,
    fd: u8,
    request: Request,
    here: Here,
) -> Result<Answer, Errno>
    requires asks { AsksBy B.kind B.kept tables.now here (Ioctl fd request) parent.old descriptors.old }
    ensures { AnswersBy B.kind B.kept tables.now (turn_on (Ioctl fd request))
        parent.old descriptors.old parent.new descriptors.new result }
{
    let held = descriptors.holding(fd)?;
    let group = descriptors.groups().of(held.way, held.slot);
    if let Some(errno) = member_refusal(group > 0, request) {
        return Err(errno);
    }
    descriptors.leave_by(held, request);
    ask(parent, tables, descriptors, fd, request, here)
}

/// The channel that a descriptor holds joins a group, with its trigger off: a new one by 0. Answers the group's number.
pub fn join<B: Feeder>(
    parent: &mut ParentOf<B>,
    tables: &Tables,
    descriptors: &mut Descriptors,
    fd: u8,
    group: u32,
    here: Here,
) -> Result<Answer, Errno>
    requires asks { AsksBy B.kind B.kept tables.now here (Join fd group) parent.old descriptors.old }
    ensures { AnswersBy B.kind B.kept tables.now (turn_on (Join fd group))
        parent.old descriptors.old parent.new descriptors.new result }
{
    let held = descriptors.holding(fd)?;
    let mut groups = descriptors.groups();
    let number = groups.join(held.way, held.slot, group)?;
    if !is_at_rest(parent, held) {
        return Err(Errno::Busy);
    }
    // A channel at rest takes a trigger that is off.
    let _ = ask(
        parent,
        tables,
        descriptors,
        fd,
        Request::SetTrigger(0),
        here,
    );
    descriptors.regroup(groups);
    Ok(Answer::Number(number))
}

/// Starts all members of a group at once, each of which must be ready. The group is not in use any more.
pub fn start_group<B: Feeder>(
    parent: &mut ParentOf<B>,
    tables: &Tables,
    descriptors: &mut Descriptors,
    fd: u8,
    group: u32,
    here: Here,
) -> Result<Answer, Errno>
    requires asks { AsksBy B.kind B.kept tables.now here (StartGroup fd group) parent.old descriptors.old }
    ensures { AnswersBy B.kind B.kept tables.now (turn_on (StartGroup fd group))
        parent.old descriptors.old parent.new descriptors.new result }
{
    let held = descriptors.holding(fd)?;
    let mut groups = descriptors.groups();
    if !may_join(held.way) || !groups.is_used(group) {
        return Err(Errno::Inval);
    }
    if !parent.is_group_ready(&groups, group) {
        return Err(Errno::Busy);
    }
    parent.start_group(tables, &groups, group, here);
    groups.dissolve(group);
    descriptors.regroup(groups);
    Ok(Answer::Done)
}

// Whether nothing of a run or a recording is there.
fn is_at_rest<B: Feeder>(parent: &ParentOf<B>, held: Held) -> bool
    requires { IsSlotThere held parent.now }
    ensures { (device : DeviceSeen) (descriptors : Descriptors) → result ≡ rests (channel_at device (desk_with parent.now descriptors) held) }
{
    match held.way {
        Way::Play => parent.channels[held.slot].is_at_rest(),
        Way::Record => parent.recorders[held.slot].is_at_rest(),
        Way::Map => parent.maps[held.slot].is_at_rest(),
    }
}
