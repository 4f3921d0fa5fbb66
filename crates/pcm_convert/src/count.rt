//! How long a conversion is.

ghost use Rattle.std.specs.Prelude.{◌≡◌};
ghost use Rattle.pcm_feeder.specs.Limits.{IsRate};
ghost use Rattle.pcm_convert.specs.Conversions.{converted_frames};

use crate::conversion::QUALITY;
use pcm_feeder::Tables;
use pcm_format::Settings;
use pcm_plan::plan_record;
use std::alloc::Global;

/// How many frames come out of a body in settings `source` at settings `target`, in all. It takes no memory.
pub fn converted_frames(alloc: Global, source: &Settings, target: &Settings, body: &[u8]) -> u128
    requires source { IsRate source.now.rate }
    requires target { IsRate target.now.rate }
    ensures { result ≡ converted_frames source.now target.now body.now }
{
    let tables = Tables::none(alloc);
    let plan = plan_record(target, source, QUALITY, &tables);
    let frames = body.len() / source.frame_bytes();
    plan.len(frames as u64)
}
