//! What is heard by the starts and ends of runs alone, without a count of what an interrupt took.
#![tactic(auto, unfolding(crate::proofs::Computing::row))]

ghost use Rattle.std.specs.Prelude.{◌≡◌, ◌≢◌, ◌∷◌, ◌++◌, [], replicate, min};
ghost use Rattle.pcm_feeder.specs.Layouts.{unity};
ghost use Rattle.pcm_sound.specs.Gains.{last_gain};
ghost use Rattle.pcm_sound.specs.Plain.{AgreeInCommon, HasNoShortage, SoundAlike};
ghost use Rattle.pcm_rows.specs.Calls.{small_device, gains_in, played, plainly_played, small_story, softer_from, spans_in, stereo_bytes, unity_from};
ghost use Rattle.pcm_rows.specs.ClientRates.{step_doubled, tail_script};
ghost use Rattle.pcm_rows.specs.OneClient.{four_frames_heard, two_frame_bytes};
ghost use Rattle.pcm_rows.specs.Requests.{cut_post_script, posted_bytes, posted_script};
ghost use Rattle.pcm_rows.specs.SeveralClients.{loud_frame};
ghost use Rattle.pcm_rows.specs.Stages.{half_right};
ghost use Rattle.pcm_rows.specs.PlainRows.{sides, heard, drawn, step_frames, four_frames, whole_script, brief_script, behind_script, late_start_script, dropped_script, dropped_bytes, dip_script, dip_bytes, two_script, two_bytes, limited_trio, unlimited_trio, three_runs_script, three_runs_bytes, drained_frames, closing_frames};

/// Four frames are heard from where their run starts on, after the silent ring, however their
/// writes were cut and wherever the interrupts stopped.
pub fn frames_are_heard_from_the_start()
    ensures device { played small_device whole_script ≡ four_frames_heard }
    ensures plain { plainly_played small_device whole_script ≡ four_frames_heard }
    ensures span { spans_in whole_script 8 ≡ heard four_frames 0 4 ∷ [] }
    ensures cut_device { played small_device cut_post_script ≡ four_frames_heard }
    ensures cut_plain { plainly_played small_device cut_post_script ≡ four_frames_heard }
    ensures cut_span { spans_in cut_post_script 8 ≡ heard four_frames 0 4 ∷ [] }
{}

/// Two frames at half the rate are heard as four: 0, 50, 100 and the 50 in which they fade.
pub fn line_is_heard_to_its_end()
    ensures plain { plainly_played small_device tail_script ≡ replicate 16 0 ++ step_doubled }
    ensures span { spans_in tail_script 8 ≡ drawn step_frames 0 4 ∷ [] }
{}

/// A halt ends a run where it is, and the next run of the slot is heard from its own first frame on.
pub fn halt_ends_a_run()
    ensures device { played small_device dropped_script ≡ dropped_bytes }
    ensures plain { plainly_played small_device dropped_script ≡ dropped_bytes }
    ensures spans { spans_in dropped_script 8 ≡ heard (sides 9 10 ∷ []) 3 4 ∷ heard four_frames 0 2 ∷ [] }
{}

/// Each frame is heard at the gain of its position: the second at half of it on the right side, and
/// all others at one.
pub fn gain_at_each_position()
    ensures device { played small_device dip_script ≡ dip_bytes }
    ensures plain { plainly_played small_device dip_script ≡ dip_bytes }
    ensures gains { gains_in dip_script ≡ unity_from 2 ∷ softer_from 1 ∷ unity_from 0 ∷ [] }
    ensures first { last_gain (gains_in dip_script) 0 ≡ unity }
    ensures second { last_gain (gains_in dip_script) 1 ≡ half_right }
    ensures third { last_gain (gains_in dip_script) 2 ≡ unity }
{}

/// Where the runs of two slots are heard at once, their sum is limited; with three it is so after
/// each addition, in the order of the slots.
pub fn sums_of_slots_are_limited()
    ensures device { played small_device two_script ≡ two_bytes }
    ensures plain { plainly_played small_device two_script ≡ two_bytes }
    ensures three { plainly_played small_device limited_trio ≡ replicate 16 0 ++ stereo_bytes (22767 ∷ []) }
    ensures other { plainly_played small_device unlimited_trio ≡ replicate 16 0 ++ loud_frame }
{}

/// A run that is short is set back by what is missing, and so it isn't heard as its start alone
/// would say.
pub fn short_run_is_heard_otherwise()
    ensures short { HasNoShortage (small_story posted_script) → ⊥ }
    ensures device { played small_device posted_script ≡ posted_bytes }
    ensures plain { plainly_played small_device posted_script ≡ four_frames_heard ++ replicate 16 0 }
    ensures differs { played small_device posted_script ≢ plainly_played small_device posted_script }
{}

/// What was written at once and what was cut sound alike as far as both are mixed, and so the device
/// gets the same as far as both go.
pub fn writes_sound_alike()
    ensures whole { HasNoShortage (small_story whole_script) }
    ensures brief { HasNoShortage (small_story brief_script) }
    ensures mixed { min (small_story whole_script).desk.mixed (small_story brief_script).desk.mixed ≡ 6 }
    ensures alike { SoundAlike small_device 6 (small_story whole_script) (small_story brief_script) }
    ensures whole_device { played small_device whole_script ≡ four_frames_heard }
    ensures brief_device { played small_device brief_script ≡ replicate 16 0 ++ two_frame_bytes }
    ensures agree { AgreeInCommon (played small_device whole_script)
        (played small_device brief_script) }
{}

/// A volume that is set where nothing is heard any more changes nothing of what is.
pub fn volume_behind_the_end_sounds_alike()
    ensures gains { gains_in behind_script ≡ softer_from 4 ∷ unity_from 0 ∷ [] }
    ensures alike { SoundAlike small_device 6 (small_story whole_script) (small_story behind_script) }
    ensures agree { AgreeInCommon (played small_device whole_script)
        (played small_device behind_script) }
{}

/// The same frames from a later start don't sound alike.
pub fn other_starts_sound_otherwise()
    ensures span { spans_in late_start_script 6 ≡ heard four_frames 1 5 ∷ [] }
    ensures otherwise { SoundAlike small_device 6 (small_story whole_script) (small_story late_start_script) → ⊥ }
{}

/// A run is heard until it drains, until it is dropped, or up to the position asked for; what starts
/// later isn't there yet.
pub fn spans_of_three_runs()
    ensures device { played small_device three_runs_script ≡ three_runs_bytes }
    ensures plain { plainly_played small_device three_runs_script ≡ three_runs_bytes }
    ensures all { spans_in three_runs_script 11 ≡ drawn closing_frames 8 11 ∷ drawn four_frames 6 8 ∷ drawn drained_frames 0 2 ∷ [] }
    ensures earlier { spans_in three_runs_script 7 ≡ drawn four_frames 6 7 ∷ drawn drained_frames 0 2 ∷ [] }
    ensures first { spans_in three_runs_script 1 ≡ drawn drained_frames 0 1 ∷ [] }
{}
