//! Scripts that record.
#![tactic(auto, unfolding(crate::proofs::Computing::row))]

ghost use Rattle.std.specs.Prelude.{◌≡◌};
ghost use Rattle.pcm_desk.specs.Usual.{usual_device};
ghost use Rattle.pcm_verdict.specs.Transcript.{transcript};
ghost use Rattle.pcm_rows.specs.Calls.{accepted, judged, printed};
ghost use Rattle.pcm_rows.specs.RecordingRows.{full_lines, full_script, full_text, late_events, late_lines, mic_pool, mono_lines, mono_recording_script, mono_text, other_way_lines, other_way_script, other_way_text, answers_recorded};

/// A ring that is full keeps its first frames, and an interrupt that lost some counts once.
pub fn full_ring_keeps_the_first()
    ensures verdict { judged usual_device full_text ≡ accepted full_script }
    ensures lines { answers_recorded full_script ≡ full_lines }
{}

/// A client of one channel records the mean of both sides, and a post starts it.
pub fn mono_recording()
    ensures verdict { judged usual_device mono_text ≡ accepted mono_recording_script }
    ensures lines { answers_recorded mono_recording_script ≡ mono_lines }
{}

/// A recording begins where the device is, a read starts none, and silence follows what is captured.
pub fn recording_begins_where_the_device_is()
    ensures lines { transcript usual_device mic_pool late_events ≡ late_lines }
{}

/// What is asked of a channel of the other way is refused.
pub fn the_other_way_is_refused()
    ensures verdict { judged usual_device other_way_text ≡ accepted other_way_script }
    ensures lines { printed usual_device other_way_script ≡ other_way_lines }
{}
