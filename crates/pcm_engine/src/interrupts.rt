//! The device's interrupt: it brings what is captured.

ghost use Rattle.std.specs.Prelude.{◌*◌, ◌<◌, ◌≤◌, ℕ, List, [], Ok, length, take};
ghost use Rattle.pcm_format.specs.Frames.{frame_bytes};
ghost use Rattle.pcm_format.specs.Layouts.{channels_of};
ghost use Rattle.pcm_oss.specs.declared.event.Event.TheVariants.{Intr};
ghost use Rattle.pcm_oss.specs.declared.reply.Answer.TheVariants.{Number};
ghost use Rattle.pcm_vchan.specs.Parents.{AreDue, HasRoomFor};
ghost use Rattle.pcm_engine.specs.declared.descriptors.Descriptors.{Descriptors};
ghost use Rattle.pcm_engine.specs.Applied.{Applied};
ghost use Rattle.pcm_engine.specs.Steps.{PutsFront};

use pcm_feeder::{Feeder, Tables};
use pcm_vchan::ParentOf;

/// The device's interrupt, with what is captured at the front of `captured`. The bytes for the device stand at the front of `out`.
/// Returns how many they are.
pub fn interrupt<B: Feeder>(
    parent: &mut ParentOf<B>,
    tables: &Tables,
    frames: u32,
    captured: &[i32],
    out: &mut [u8],
) -> usize
    requires room { frames * channels_of parent.old.device.settings.layout ≤ length captured.now }
    requires some { 0 < frames }
    requires within { frames ≤ parent.old.device.ring_frames }
    requires out { frames * frame_bytes parent.old.device.settings ≤ length out.old }
    requires due { AreDue B.kind B.kept tables.now frames parent.old }
    requires counts { HasRoomFor frames parent.old }
    ensures applied { (descriptors : Descriptors) (bytes : List ℕ) → Applied B.kind B.kept tables.now (Intr frames) bytes
        (take (frames * channels_of parent.old.device.settings.layout) captured.now)
        parent.old descriptors parent.new descriptors (record { result = Ok (Number frames); bytes = [] }) }
    ensures out { PutsFront (frames * frame_bytes parent.old.device.settings) parent.old.ring.bytes out.old out.new result }
{
    let n = frames as usize;
    let size = n * parent.device.settings.frame_bytes();
    let captured = &captured[..n * parent.device.settings.layout.channels()];
    parent.interrupt(tables, n, captured, &mut out[..size]);
    size
}
