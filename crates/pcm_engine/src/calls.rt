//! The calls of clients that are answered by the rules alone.

ghost use Rattle.std.specs.Prelude.{◌≡◌, ℤ, List, [], length};
ghost use Rattle.pcm_oss.specs.Replies.{bytes_due};
ghost use Rattle.pcm_desk.specs.Device.{seen};
ghost use Rattle.pcm_engine.specs.Answered.{CanBeAsked};
ghost use Rattle.pcm_engine.specs.Applied.{Applied, IsAnsweredAlone};
ghost use Rattle.pcm_engine.specs.Brought.{bytes_asked, IsAllowed};

use crate::clients::{close, open, poke, write};
use crate::descriptors::Descriptors;
use crate::grouped::{ioctl, join, start_group};
use crate::mixer_calls::ask_mixer;
use pcm_desk::Here;
use pcm_feeder::{Feeder, Tables};
use pcm_oss::{Answer, Errno, Event};
use pcm_vchan::ParentOf;

/// Does what an event asks, with the bytes that it brings. It is neither a read nor an interrupt.
pub fn call<B: Feeder>(
    parent: &mut ParentOf<B>,
    tables: &Tables,
    descriptors: &mut Descriptors,
    event: &Event,
    bytes: &[u8],
    here: Here,
) -> Result<Answer, Errno>
    requires told { IsAnsweredAlone event.now }
    requires within { IsAllowed (seen tables.now parent.old.device) event.now }
    requires bytes { length bytes.now ≡ bytes_asked event.now }
    requires able { CanBeAsked B.kind B.kept tables.now here parent.old descriptors.old }
    ensures silent { bytes_due result ≡ 0 }
    ensures applied { (samples : List ℤ) → Applied B.kind B.kept tables.now event.now bytes.now samples
        parent.old descriptors.old parent.new descriptors.new (record { result = result; bytes = [] }) }
{
    match *event {
        Event::Open { fd, way, settings } => open(parent, tables, descriptors, fd, way, settings),
        Event::Write { fd, .. } => write(parent, descriptors, fd, bytes, here),
        Event::Poke { fd, offset, .. } => poke(parent, descriptors, fd, offset, bytes),
        Event::Ioctl { fd, request } => ioctl(parent, tables, descriptors, fd, request, here),
        Event::Join { fd, group } => join(parent, tables, descriptors, fd, group, here),
        Event::StartGroup { fd, group } => start_group(
            parent,
            tables,
            descriptors,
            fd,
            group,
            here,
        ),
        Event::Close { fd } => close(parent, descriptors, fd, here),
        Event::Mixer { request } => ask_mixer(parent, request),
        Event::Read { .. } | Event::Intr { .. } => unreachable!(),
    }
}
