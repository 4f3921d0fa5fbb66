//! What is mixed, on its way to the device.

ghost use Rattle.std.specs.Prelude.{◌≡◌, ◌≤◌, ◌*◌, length, All};
ghost use Rattle.pcm_num.specs.Limit.{FitsBits};
ghost use Rattle.pcm_format.specs.Formats.{bits_of};
ghost use Rattle.pcm_format.specs.Layouts.{channels_of};
ghost use Rattle.pcm_desk.specs.Device.{seen};
ghost use Rattle.pcm_bus.specs.Handovers.{CanMake, IsPlannedBy, MakesOn, MakesOnFar};

use pcm_chain::ChainOf;
use pcm_desk::Device;
use pcm_feeder::{Feeder, Tables};
use pcm_format::bring_to_full;

/// Hands over what the device gets for mixed samples: `n` of its frames. Where what is mixed is handed over as it is, these
/// samples are lent, and the chain is passed over. Else they are brought to 32 bits in place, and what the chain makes of
/// them is lent: it stands at the front of `frames`. Takes no memory.
pub fn hand_over<'a, B: Feeder>(
    device: Device,
    tables: &Tables,
    chain: &mut ChainOf<B>,
    n: usize,
    mixed: &'a mut [i32],
    frames: &'a mut [i32],
) -> &'a [i32]
    requires planned { IsPlannedBy (seen tables.now device) chain.old }
    requires fits { All (FitsBits (bits_of device.mix.format)) mixed.old }
    requires can { CanMake B.kept (seen tables.now device) chain.old mixed.old n }
    requires room { n * channels_of device.settings.layout ≤ length frames.old }
    ensures planned { IsPlannedBy (seen tables.now device) chain.new }
    ensures count { length result.now ≡ n * channels_of device.settings.layout }
    ensures fits { All (FitsBits (bits_of device.settings.format)) result.now }
    ensures far { MakesOnFar B.kept (seen tables.now device) mixed.old n chain.old chain.new }
    ensures makes { MakesOn B.kept (seen tables.now device) mixed.old n
        chain.old chain.new result.now }
{
    if device.is_straight() {
        return mixed;
    }
    let made = &mut frames[..n * device.settings.layout.channels()];
    bring_to_full(mixed, device.mix.format);
    chain.give(tables, mixed, made);
    made
}
