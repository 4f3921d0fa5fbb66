//! What an interrupt brings to channels that record.

ghost use Rattle.std.specs.Prelude.{◌≡◌, ◌*◌, ◌≤◌, length};
ghost use Rattle.pcm_format.specs.Layouts.{channels_of};
ghost use Rattle.pcm_desk.specs.declared.limits.TheConstants.{RING_FRAMES};

use crate::walk::Visit;
use pcm_desk::Device;
use pcm_feeder::{Feeder, Tables};
use pcm_record::RecordChannelOf;

/// Captures `n` frames of the device, if the channel has started.
#[derive(Clone, Copy)]
pub(crate) struct Capture<'a> {
    pub tables: &'a Tables,
    pub device: Device,
    pub n: usize,
    pub captured: &'a [i32],
    ghost few: { n ≤ RING_FRAMES },
    ghost whole: { length captured.now ≡ n * channels_of device.settings.layout },
}

impl<'a, B: Feeder> Visit<RecordChannelOf<B>> for Capture<'a> {
    ghost use Rattle.pcm_desk.specs.Device.{seen};
    ghost use Rattle.pcm_vchan.specs.Slots.{IsRecordDue};
    ghost use Rattle.pcm_vchan.specs.Captures.{Captures};

    ghost may = { λ capture. IsRecordDue B.kind B.kept capture.tables.now capture.device capture.n };

    ghost leaves = { λ capture _. Captures B.kind B.kept (seen capture.tables.now capture.device) capture.n capture.captured.now };

    fn visit(&self, _slot: usize, channel: &mut RecordChannelOf<B>) {
        channel.capture(self.tables, self.n, self.captured);
    }
}
