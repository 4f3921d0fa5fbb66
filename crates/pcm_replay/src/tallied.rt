//! The top call over the forms that only count: how much a call would write, with nothing kept.

ghost use Rattle.std.specs.Prelude.{◌≢◌};
ghost use Rattle.pcm_feeder.specs.Racks.{AreRacks, list_of};

use crate::top::dsp_main;
use pcm_engine::EngineOf;
use pcm_feeder::{Feeder, RacksOf};
use pcm_outside::{TallyFiles, TallySink};
use std::alloc::Global;

/// Does what the words ask for, over files that are all empty, and counts the bytes that it writes and puts. Where no read and
/// no write fails, neither of the statuses that blame the outside is answered.
pub fn tally_main<B: Feeder>(
    alloc: Global,
    words: &[String],
    files: &mut TallyFiles,
    out: &mut TallySink,
    racks: RacksOf<B>,
    ran: &mut Option<EngineOf<B>>,
) -> u8
    requires kinds { AreRacks B.kind (list_of racks) }
    ensures reads { result ≢ 3 }
    ensures writes { result ≢ 7 }
{
    dsp_main(alloc, words, files, out, racks, ran)
}
