//! Calls by their words and files: what is read in which order, what is accepted, and what stops a call.
#![tactic(auto, unfolding(crate::proofs::Computing::row))]

ghost use Rattle.std.specs.Prelude.{◌≡◌, ◌∷◌, ℕ, List, Option, Err, Ok, [], codes};
ghost use Rattle.pcm_verdict.specs.Verdict.{Checks, verdict, words_judged};
ghost use Rattle.pcm_verdict.specs.Faults.{Missing, Usage, fault_line, status_of};
ghost use Rattle.pcm_verdict.specs.Outputs.{check_line};
ghost use Rattle.pcm_rows.specs.Calls.{run_call, only};
ghost use Rattle.pcm_rows.specs.Verdicts.{check_call, cut_files, cut_wave_fault, short_call, song_files, song_inputs};

/// Two words match no form, whatever the files hold.
pub fn words_of_no_form()
    ensures verdict { (content : List ℕ → Option (List ℕ)) → verdict short_call content ≡ Err Usage }
    ensures printed { fault_line Usage
        ≡ codes "dsp_replay: usage: run SCRIPT OUT [CONFIG] | check SCRIPT [CONFIG] | convert IN OUT RATE FORMAT CHANNELS | soak N\n" }
    ensures status { status_of Usage ≡ 2 }
{}

/// A script that isn't there.
pub fn script_not_there()
    ensures verdict { verdict run_call (only (codes "t") []) ≡ Err (Missing (codes "s")) }
    ensures printed { fault_line (Missing (codes "s")) ≡ codes "dsp_replay: cannot read s\n" }
    ensures status { status_of (Missing (codes "s")) ≡ 3 }
{}

/// The configuration is read first, then its data files, and last the script.
pub fn files_in_their_order()
    ensures accepted { verdict check_call song_files ≡ Ok (Checks song_inputs) }
    ensures names { (words_judged check_call song_files).names ≡ codes "c" ∷ codes "w" ∷ codes "s" ∷ [] }
    ensures line { check_line song_inputs ≡ codes "events 1 frames 0\n" }
{}

/// A data file that is no wave stops a call before its script is read.
pub fn a_wave_stops_a_call()
    ensures verdict { verdict check_call cut_files ≡ Err cut_wave_fault }
    ensures printed { fault_line cut_wave_fault ≡ codes "dsp_replay: bad wave: w: notriff\n" }
    ensures status { status_of cut_wave_fault ≡ 6 }
{}
