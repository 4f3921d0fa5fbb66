//! The plan of an opening that came from outside.

ghost use Rattle.std.specs.Prelude.{◌≡◌, IfOk, IsOk};
ghost use Rattle.pcm_feeder.specs.Limits.{IsRate};
ghost use Rattle.pcm_desk.specs.Device.{HasRates, seen};
ghost use Rattle.pcm_path.specs.Ways.{plan_between};

use crate::StateFault;
use pcm_desk::{Device, Opening};
use pcm_feeder::Tables;
use pcm_order::is_rate;
use pcm_oss::Way;
use pcm_path::plan_of;
use pcm_plan::Plan;

/// The plan between a client of a way, with this opening, and a device.
pub(crate) fn planned(
    way: Way,
    tables: &Tables,
    device: &Device,
    opening: &Opening,
) -> Result<Plan, StateFault>
    requires { HasRates device.now }
    ensures plan { IfOk result (λ plan. plan ≡ plan_between way (seen tables.now device.now) opening.now.settings) }
    ensures taken { IsRate opening.now.settings.rate → IsOk result }
{
    if is_rate(opening.settings.rate) {
        Ok(plan_of(way, tables, device, &opening.settings))
    } else {
        Err(StateFault::OutOfOrder)
    }
}
