//! What the device's ring still holds, and when a run is over.
#![tactic(auto, unfolding(crate::proofs::Computing::row))]

ghost use Rattle.std.specs.Prelude.{◌≡◌, ◌∷◌, [], pos, negsuc, take};
ghost use Rattle.pcm_wave.specs.declared.pool.Pool.{Pool};
ghost use Rattle.pcm_desk.specs.declared.play_book.PlayState.TheVariants.{Setup};
ghost use Rattle.pcm_desk.specs.Device.{passed_for};
ghost use Rattle.pcm_desk.specs.Usual.{usual_device};
ghost use Rattle.pcm_verdict.specs.Transcript.{transcript};
ghost use Rattle.pcm_rows.specs.Calls.{accepted, book_after, judged, printed, small_device, small_story};
ghost use Rattle.pcm_rows.specs.DelayRows.{delay_lines, delay_script, delay_text, handed_lines, handed_script, handed_text, held_book, held_run, held_script, twice_delayed, twice_lines};
ghost use Rattle.pcm_rows.specs.MixRows.{half_mixed, twice_mixed};

/// A delay counts what waits and what the device's ring still holds: while more may come up to all that
/// is mixed, and once all is given up to the last frame.
pub fn delay_counts_the_device_ring()
    ensures verdict { judged usual_device delay_text ≡ accepted delay_script }
    ensures lines { printed usual_device delay_script ≡ delay_lines }
    ensures twice { (pool : Pool) → transcript half_mixed pool twice_delayed ≡ twice_lines }
{}

/// A run is over at its sync where its last frame was handed over before.
pub fn sync_ends_a_handed_over_run()
    ensures verdict { judged usual_device handed_text ≡ accepted handed_script }
    ensures lines { printed usual_device handed_script ≡ handed_lines }
{}

/// A drain goes on while the ring holds its last frame: interrupts take pieces of no frame, and the
/// one that hands that frame over ends it.
pub fn drain_lasts_until_it_is_handed_over()
    ensures held { book_after small_device (take 6 held_script.events) ≡ held_book }
    ensures runs { (small_story (record held_script { events = take 6 held_script.events })).runs 0 ≡ held_run ∷ [] }
    ensures mixed { (small_story (record held_script { events = take 6 held_script.events })).desk.mixed ≡ 6 }
    ensures seventh { book_after small_device (take 7 held_script.events) ≡ held_book }
    ensures over { (book_after small_device held_script.events).state ≡ Setup }
{}

/// What has left the ring is rounded down, below 0 too: of a ring of four frames, which last as long as
/// two of the mix at half the rate.
pub fn passed_frames_are_rounded_down()
    ensures none { passed_for half_mixed 0 ≡ negsuc 1 }
    ensures first { passed_for half_mixed 1 ≡ negsuc 1 }
    ensures third { passed_for half_mixed 3 ≡ negsuc 0 }
    ensures fourth { passed_for half_mixed 4 ≡ pos 0 }
    ensures fifth { passed_for half_mixed 5 ≡ pos 0 }
    ensures sixth { passed_for half_mixed 6 ≡ pos 1 }
    ensures twice { passed_for twice_mixed 3 ≡ negsuc 1 }
    ensures usual { passed_for usual_device 1028 ≡ pos 4 }
{}
