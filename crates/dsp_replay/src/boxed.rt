//! A run with stages out of boxes that this program makes.

ghost use Rattle.std.specs.Prelude.{◌≡◌, ◌≢◌, IfOk, None};
ghost use Rattle.pcm_verdict.specs.Commands.{command_of};
ghost use Rattle.pcm_replay.specs.Calls.{texts};
ghost use Rattle.pcm_replay.specs.Outcomes.{IsStatus};

use feed_eq::EqFeeder;
use feed_format::DepthFeeder;
use feed_hold::HoldFeeder;
use feed_linear::LinearFeeder;
use feed_matrix::MatrixFeeder;
use feed_poly::PolyFeeder;
use feed_volume::VolumeFeeder;
use pcm_feeder::{RACKS, RackFault, Racks, Seven};
use pcm_outside::{Files, Sink};
use pcm_replay::dsp_main;
use std::alloc::Global;

/// Makes the racks of a run, does with them what the words ask for, and returns the status that the program ends with.
// No function returns boxes, so the run is called where its racks are made.
pub fn run_boxed<F: Files, K: Sink>(
    alloc: Global,
    words: &[String],
    files: &mut F,
    out: &mut K,
) -> Result<u8, RackFault>
    ensures statuses { IfOk result IsStatus }
    ensures usage { IfOk result (λ status. status ≡ 2 → command_of (texts words) ≡ None) }
    ensures only_usage { command_of (texts words) ≡ None
        → IfOk result (λ status. status ≢ 2 → status ≡ 7) }
{
    let mut boxes = Vec::new(alloc);
    for _ in 0..RACKS {
        boxes.push(Seven {
            matrix: Box::new(alloc, MatrixFeeder::new(alloc)?)?,
            hold: Box::new(alloc, HoldFeeder::new(alloc)?)?,
            linear: Box::new(alloc, LinearFeeder::new(alloc)?)?,
            poly: Box::new(alloc, PolyFeeder::new(alloc)?)?,
            volume: Box::new(alloc, VolumeFeeder::new(alloc)?)?,
            depth: Box::new(alloc, DepthFeeder::new(alloc)?)?,
            eq: Box::new(alloc, EqFeeder::new(alloc)?)?,
        })?;
    }
    let racks = Racks::of_boxes(alloc, boxes)?;
    let mut ran = None;
    Ok(dsp_main(alloc, words, files, out, racks, &mut ran))
}
