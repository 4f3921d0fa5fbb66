//! The top call: words, files and a sink go in, and a status comes out.

ghost use Rattle.std.specs.Prelude.{◌≡◌, ◌≢◌, IfErr, IfOk};
ghost use Rattle.pcm_feeder.specs.Racks.{AreRacks, list_of};
ghost use Rattle.pcm_replay.specs.Accepted.{FinishesAs, LeavesAlike, LeavesCheck, LeavesPlain, LeavesRun, LeavesSoak, LeavesWave};
ghost use Rattle.pcm_replay.specs.Calls.{call};
ghost use Rattle.pcm_replay.specs.Endings.{DoesWords, EndsCall};
ghost use Rattle.pcm_replay.specs.Outcomes.{CannotReadOne, FailsToWrite, IsJudged, IsStatus, LacksMemory, RefusesConfig, RefusesScript, RefusesWave, RefusesWords};

use crate::commands::do_command;
use crate::refusals::refuse_words;
use pcm_engine::EngineOf;
use pcm_feeder::{Feeder, RacksOf};
use pcm_inputs::{Ending, command_in};
use pcm_outside::{Files, Sink};
use std::alloc::Global;

/// Does what the words ask for, with stages out of the racks. The status that the program ends with is 0, or says what
/// stopped it. Where a script was run to its end, its engine is left in `ran`.
pub fn dsp_main<B: Feeder, F: Files, K: Sink>(
    alloc: Global,
    words: &[String],
    files: &mut F,
    out: &mut K,
    racks: RacksOf<B>,
    ran: &mut Option<EngineOf<B>>,
) -> u8
    requires kinds { AreRacks B.kind (list_of racks) }
    ensures statuses { IsStatus result }
    ensures judged { IsJudged (call F.seen K.seen words files out) result }
    // 0, a run: the device file has exactly its bytes, and exactly the replies were put.
    ensures headline { result ≡ 0 → LeavesRun (call F.seen K.seen words files out) }
    // Without a shortage these are what is heard of its clients, and those of any other run whose clients sound alike.
    ensures plain { result ≡ 0 → LeavesPlain (call F.seen K.seen words files out) }
    ensures alike { result ≡ 0 → LeavesAlike (call F.seen K.seen words files out) }
    // 0, a check, a soak and a conversion: exactly its file, if it has one, and exactly its line.
    ensures checked { result ≡ 0 → LeavesCheck (call F.seen K.seen words files out) }
    ensures soaked { result ≡ 0 → LeavesSoak (call F.seen K.seen words files out) }
    ensures converted { result ≡ 0 → LeavesWave (call F.seen K.seen words files out) }
    ensures finished { result ≡ 0 → FinishesAs B.kind B.kept ran (call F.seen K.seen words files out) }
    ensures stays { result ≢ 0 → ran.new ≡ ran.old }
    // 2 to 6: nothing was written, and exactly the line of the fault was put.
    ensures usage { result ≡ 2 → RefusesWords (call F.seen K.seen words files out) }
    ensures read_cause { result ≡ 3 → CannotReadOne (call F.seen K.seen words files out) }
    ensures bad_config { result ≡ 4 → RefusesConfig (call F.seen K.seen words files out) }
    ensures bad_script { result ≡ 5 → RefusesScript (call F.seen K.seen words files out) }
    ensures bad_wave { result ≡ 6 → RefusesWave (call F.seen K.seen words files out) }
    ensures cut { result ≡ 7 → FailsToWrite (call F.seen K.seen words files out) }
    ensures memory { result ≡ 8 → LacksMemory (call F.seen K.seen words files out) }
{
    match carry_out(alloc, words, files, out, racks) {
        Ok(None) => 0,
        Ok(Some(engine)) => {
            *ran = Some(engine);
            0
        }
        Err(ending) => ending.status(),
    }
}

// The words are judged, and then what they ask for is done.
fn carry_out<B: Feeder, F: Files, K: Sink>(
    alloc: Global,
    words: &[String],
    files: &mut F,
    out: &mut K,
    racks: RacksOf<B>,
) -> Result<Option<EngineOf<B>>, Ending>
    requires kinds { AreRacks B.kind (list_of racks) }
    ensures ok { IfOk result (DoesWords B.kind B.kept (call F.seen K.seen words files out)) }
    ensures err { IfErr result (EndsCall (call F.seen K.seen words files out)) }
{
    let Some(command) = command_in(words) else {
        return Err(refuse_words(out));
    };
    do_command(alloc, command, files, out, racks)
}
