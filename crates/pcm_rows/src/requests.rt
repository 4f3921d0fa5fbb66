//! What a client asks of its channel, from the lines of its script to what is heard.
#![tactic(auto, unfolding(crate::proofs::Computing::row))]

ghost use Rattle.std.specs.Prelude.{◌≡◌, ◌∷◌, ◌++◌, [], replicate, take, Some, None, true, false};
ghost use Rattle.pcm_wave.specs.declared.pool.Pool.{Pool};
ghost use Rattle.pcm_oss.specs.declared.event.Event.TheVariants.{Intr};
ghost use Rattle.pcm_oss.specs.declared.request.Request.TheVariants.{SetTrigger, Post, Sync, Halt};
ghost use Rattle.pcm_desk.specs.declared.play_book.PlayState.TheVariants.{Setup, Primed, Running, Draining};
ghost use Rattle.pcm_rows.specs.Calls.{small_device, accepted, judged, played, printed, book_after, gains_in, runs_in, softer_from, unity_from, usual_book};
ghost use Rattle.pcm_rows.specs.ClientRates.{step_doubled};
ghost use Rattle.pcm_rows.specs.OneClient.{four_frames_heard, two_frames_heard};
ghost use Rattle.pcm_rows.specs.Requests.{asks, runs_of_two, run_of_two, run_begun, posted_text, posted_script, posted_bytes, posted_lines, posted_book, posted_run, synced_text, synced_script, synced_lines, synced_book, synced_run, synced_tail_text, synced_tail_script, synced_tail_lines, cut_post_text, cut_post_script, cut_post_lines, refused_text, refused_script, refused_lines, wrong_way_text, wrong_way_script, wrong_way_lines, busy_text, busy_script, busy_lines, both_ends_text, both_ends_script, both_ends_lines, small_ring_text, small_ring_script, small_ring_lines, small_ring_book, half_frame_events, half_frame_book, no_bytes_events, halted_text, halted_script, halted_bytes, halted_lines, halted_book, halted_over_book, dropped_run, second_run, softer_text, softer_script, softer_bytes, softer_lines, changed_text, changed_script, changed_bytes, changed_lines, anew_events, anew_gains};

/// A post starts less than a fragment. The shortage that follows is answered once, and what comes
/// late is heard late.
pub fn shortage_is_told_once()
    ensures verdict { judged small_device posted_text ≡ accepted posted_script }
    ensures device { played small_device posted_script ≡ posted_bytes }
    ensures lines { printed small_device posted_script ≡ posted_lines }
    ensures book { book_after small_device posted_script.events ≡ posted_book }
    ensures runs { runs_in posted_script ≡ posted_run ∷ [] }
{}

/// A sync plays what is there and counts no shortage; then the channel is as open as before, and
/// its position stays.
pub fn sync_plays_what_is_there()
    ensures verdict { judged small_device synced_text ≡ accepted synced_script }
    ensures device { played small_device synced_script ≡ two_frames_heard }
    ensures lines { printed small_device synced_script ≡ synced_lines }
    ensures draining { book_after small_device (take 3 synced_script.events) ≡ usual_book (Draining false) 8 0 0 }
    ensures over { book_after small_device synced_script.events ≡ synced_book }
    ensures runs { runs_in synced_script ≡ synced_run ∷ [] }
{}

/// A sync goes on to the last output, as a close does: the last frame fades to silence.
pub fn sync_gives_its_tail()
    ensures verdict { judged small_device synced_tail_text ≡ accepted synced_tail_script }
    ensures device { played small_device synced_tail_script ≡ replicate 16 0 ++ step_doubled }
    ensures lines { printed small_device synced_tail_script ≡ synced_tail_lines }
{}

/// How writes cut the frames isn't heard, nor when they come, as long as no interrupt is short.
pub fn cut_behind_a_post()
    ensures verdict { judged small_device cut_post_text ≡ accepted cut_post_script }
    ensures device { played small_device cut_post_script ≡ four_frames_heard }
    ensures lines { printed small_device cut_post_script ≡ cut_post_lines }
{}

/// A refused request changes nothing, and the settings are answered while the channel runs.
pub fn refusals_change_nothing()
    ensures verdict { judged small_device refused_text ≡ accepted refused_script }
    ensures device { played small_device refused_script ≡ [] }
    ensures lines { printed small_device refused_script ≡ refused_lines }
    ensures before { book_after small_device (take 3 refused_script.events) ≡ usual_book Running 16 0 0 }
    ensures behind { book_after small_device refused_script.events ≡ usual_book Running 16 0 0 }
{}

/// What is asked of recordings is refused, and so is a trigger of more than two bits.
pub fn requests_of_the_wrong_way()
    ensures verdict { judged small_device wrong_way_text ≡ accepted wrong_way_script }
    ensures lines { printed small_device wrong_way_script ≡ wrong_way_lines }
{}

/// Nothing is written after a sync, and the trigger stays as it is, until all is played.
pub fn draining_refuses_busy()
    ensures verdict { judged small_device busy_text ≡ accepted busy_script }
    ensures lines { printed small_device busy_script ≡ busy_lines }
    ensures book { book_after small_device busy_script.events ≡ usual_book (Draining false) 16 0 0 }
{}

/// The greatest ring, in as many fragments as it can have, and in as few.
pub fn fragments_at_both_ends()
    ensures verdict { judged small_device both_ends_text ≡ accepted both_ends_script }
    ensures lines { printed small_device both_ends_script ≡ both_ends_lines }
{}

/// A small ring is full soon: then some bytes are refused, and none are accepted.
pub fn full_ring_refuses_again()
    ensures verdict { judged small_device small_ring_text ≡ accepted small_ring_script }
    ensures lines { printed small_device small_ring_script ≡ small_ring_lines }
    ensures book { book_after small_device small_ring_script.events ≡ small_ring_book }
{}

/// A full fragment starts a channel, be it half a frame; where the trigger was off before, a write
/// of no bytes finds it.
pub fn half_a_frame_fills_a_fragment()
    ensures started { book_after small_device (take 3 half_frame_events) ≡ half_frame_book 0 }
    ensures short { book_after small_device half_frame_events ≡ half_frame_book 1 }
    ensures waits { (book_after small_device (take 5 no_bytes_events)).state ≡ Primed }
    ensures found { book_after small_device no_bytes_events ≡ half_frame_book 0 }
{}

/// A halt drops what waits, and the position is 0 again. What was mixed is heard, and the shortage
/// stays counted. The next run has no part of the one before.
pub fn halt_drops_and_counts()
    ensures verdict { judged small_device halted_text ≡ accepted halted_script }
    ensures device { played small_device halted_script ≡ halted_bytes }
    ensures lines { printed small_device halted_script ≡ halted_lines }
    ensures halted { book_after small_device (take 6 halted_script.events) ≡ halted_book }
    ensures over { book_after small_device halted_script.events ≡ halted_over_book }
    ensures runs { runs_in halted_script ≡ second_run ∷ dropped_run ∷ [] }
{}

/// A volume is heard from the next frame on that is mixed, and not from the next that is heard.
pub fn volume_from_the_next_frame()
    ensures verdict { judged small_device softer_text ≡ accepted softer_script }
    ensures device { played small_device softer_script ≡ softer_bytes }
    ensures lines { printed small_device softer_script ≡ softer_lines }
    ensures gains { gains_in softer_script ≡ softer_from 2 ∷ unity_from 0 ∷ [] }
{}

/// Between two runs other settings are chosen, and each run is heard in its own. The position
/// counts the bytes of both.
pub fn settings_between_two_runs()
    ensures verdict { judged small_device changed_text ≡ accepted changed_script }
    ensures device { played small_device changed_script ≡ changed_bytes }
    ensures lines { printed small_device changed_script ≡ changed_lines }
{}

/// An opening begins with a volume of 100, the trigger on and four fragments of 4096 bytes, whatever
/// the client before it chose.
pub fn opening_begins_anew()
    ensures first { book_after small_device (take 1 anew_events) ≡ usual_book Setup 0 0 0 }
    ensures next { book_after small_device anew_events ≡ usual_book Setup 0 0 0 }
    ensures gains { (pool : Pool) → anew_gains pool ≡ unity_from 3 ∷ softer_from 2 ∷ unity_from 0 ∷ [] }
{}

/// A run is marked with its start, its drain and its drop: a halt drops what runs or drains, and so
/// does a trigger that is turned off; a sync drains. What never started has no mark.
pub fn marks_of_a_run()
    ensures halted { runs_of_two (asks Post ∷ Intr 1 ∷ asks Halt ∷ []) ≡ run_begun 1 false (Some 1) ∷ [] }
    ensures stopped { runs_of_two (asks Post ∷ Intr 1 ∷ asks (SetTrigger 1) ∷ []) ≡ run_begun 1 false (Some 1) ∷ [] }
    ensures cut { runs_of_two (asks Sync ∷ Intr 1 ∷ asks Halt ∷ []) ≡ run_begun 1 true (Some 1) ∷ [] }
    ensures drained { runs_of_two (asks Post ∷ Intr 2 ∷ asks Sync ∷ []) ≡ run_begun 2 true None ∷ [] }
    ensures waiting { runs_of_two (asks Halt ∷ []) ≡ run_of_two None false None [] ∷ [] }
{}
