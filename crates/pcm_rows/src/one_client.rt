//! One client's frames, from its writes to the device.
#![tactic(auto, unfolding(crate::proofs::Computing::row))]

ghost use Rattle.std.specs.Prelude.{◌≡◌, ◌∷◌, ◌++◌, [], codes, replicate};
ghost use Rattle.pcm_desk.specs.Usual.{usual_device};
ghost use Rattle.pcm_script.specs.Lines.{empty_script};
ghost use Rattle.pcm_rows.specs.Calls.{small_device, accepted, judged, script_in, ring_of_silence, played, printed, book_after, gains_in, runs_in, unity_from};
ghost use Rattle.pcm_rows.specs.OneClient.{silent_script, drain_text, drain_bytes, drain_script, drain_lines, cut_text, cut_script, cut_lines, stray_close_script, short_drain_text, short_drain_script, short_drain_lines, short_drain_run, two_frames_heard, over_book, late_script, late_run, part_text, part_script, part_lines};

/// A script without events makes an empty file and prints nothing.
pub fn empty_script()
    ensures verdict { judged usual_device [] ≡ accepted empty_script }
    ensures device { played usual_device empty_script ≡ [] }
    ensures lines { printed usual_device empty_script ≡ [] }
{}

/// The ring begins as silence.
pub fn one_silent_block()
    ensures verdict { script_in "intr 1024\n" ≡ accepted silent_script }
    ensures device { played usual_device silent_script ≡ ring_of_silence }
    ensures lines { printed usual_device silent_script ≡ codes "1: ok 1024\n" }
{}

/// A close starts what is less than a fragment, and all of it is heard after the silent ring.
pub fn drain_below_a_fragment()
    ensures verdict { judged usual_device drain_text ≡ accepted drain_script }
    ensures device { played usual_device drain_script ≡ ring_of_silence ++ drain_bytes }
    ensures lines { printed usual_device drain_script ≡ drain_lines }
{}

/// How writes cut the frames isn't heard.
pub fn cut_into_three_writes()
    ensures verdict { judged usual_device cut_text ≡ accepted cut_script }
    ensures device { played usual_device cut_script ≡ played usual_device drain_script }
    ensures lines { printed usual_device cut_script ≡ cut_lines }
{}

/// A close of a descriptor that nobody opened is refused, and the run goes on.
pub fn close_of_a_closed_descriptor()
    ensures verdict { script_in "close 5\n" ≡ accepted stray_close_script }
    ensures device { played usual_device stray_close_script ≡ [] }
    ensures lines { printed usual_device stray_close_script ≡ codes "1: refused badf\n" }
{}

/// The end of a drain is no shortage.
pub fn drain_counts_no_shortage()
    ensures verdict { judged small_device short_drain_text ≡ accepted short_drain_script }
    ensures device { played small_device short_drain_script ≡ two_frames_heard }
    ensures lines { printed small_device short_drain_script ≡ short_drain_lines }
    ensures over { book_after small_device short_drain_script.events ≡ over_book }
    ensures runs { runs_in short_drain_script ≡ short_drain_run ∷ [] }
    ensures gains { gains_in short_drain_script ≡ unity_from 0 ∷ [] }
{}

/// A part of a frame alone starts nothing, and its slot is free after the close.
pub fn part_of_a_frame_is_dropped()
    ensures verdict { judged small_device part_text ≡ accepted part_script }
    ensures device { played small_device part_script ≡ replicate 20 0 }
    ensures lines { printed small_device part_script ≡ part_lines }
{}

/// A run starts at its close, after the frames mixed before, and each opening of a slot sets its gain.
pub fn late_close_starts_late()
    ensures runs { runs_in late_script ≡ late_run ∷ [] }
    ensures gains { gains_in late_script ≡ unity_from 8 ∷ unity_from 0 ∷ [] }
{}
