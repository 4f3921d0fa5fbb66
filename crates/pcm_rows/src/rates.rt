//! Clients at another rate than the device's: lines are drawn between their frames, or they go through a filter.
#![tactic(auto, unfolding(crate::proofs::Computing::row))]

ghost use Rattle.std.specs.Prelude.{◌≡◌, ◌∷◌, ◌++◌, [], codes, replicate, take};
ghost use Rattle.pcm_desk.specs.Usual.{usual_device};
ghost use Rattle.pcm_rows.specs.Calls.{small_device, accepted, judged, played, printed, book_after, runs_in, ring_of_silence};
ghost use Rattle.pcm_rows.specs.ClientFormats.{client_judged, client_lines};
ghost use Rattle.pcm_rows.specs.ClientRates.{opening_text, opening_script, opening_bytes, step_doubled, tail_text, tail_script, tail_lines, tail_book, tail_over_book, tail_run, narrow_device, downmix_text, downmix_script, downmix_lines, wide_events, wide_book, filtered_device, filtered_text, filtered_script, filtered_lines, filtered_bytes, filtered_book, ahead_device, ahead_frame, ahead_script, ahead_book};

/// An open without settings is one channel of unsigned bytes at 8000, so each of its frames makes
/// six on both sides, of which the first is the frame itself.
pub fn six_frames_for_each()
    ensures verdict { judged usual_device opening_text ≡ accepted opening_script }
    ensures named { client_judged "u8 1 8000" "80867a" "18" ≡ accepted opening_script }
    ensures device { played usual_device opening_script ≡ ring_of_silence ++ opening_bytes }
    ensures lines { printed usual_device opening_script ≡ client_lines (codes "3") (codes "18") }
{}

/// A drain goes on past the output after which no more is sure: its last frame fades to silence.
pub fn drain_gives_its_tail()
    ensures verdict { judged small_device tail_text ≡ accepted tail_script }
    ensures device { played small_device tail_script ≡ replicate 16 0 ++ step_doubled }
    ensures lines { printed small_device tail_script ≡ tail_lines }
    ensures left { book_after small_device (take 4 tail_script.events) ≡ tail_book }
    ensures over { book_after small_device tail_script.events ≡ tail_over_book }
    ensures runs { runs_in tail_script ≡ tail_run ∷ [] }
{}

/// Two channels become one before the rate changes, each time rounded down: 0, 0, 1 and 0.
pub fn downmix_at_half_the_rate()
    ensures verdict { judged narrow_device downmix_text ≡ accepted downmix_script }
    ensures device { played narrow_device downmix_script
        ≡ replicate 24 0 ++ 1 ∷ 0 ∷ 0 ∷ 0 ∷ 0 ∷ 0 ∷ 0 ∷ 0 ∷ [] }
    ensures lines { printed narrow_device downmix_script ≡ downmix_lines }
{}

/// The last frame of a stream waits for the one after it: 128 frames give 254 of the 256 that they
/// last for. The shortage is counted once, and what was missed is given when the next frame comes.
pub fn shortage_at_half_the_rate()
    ensures all { book_after usual_device (take 3 wide_events) ≡ wide_book 4096 128 254 254 0 }
    ensures short { book_after usual_device (take 4 wide_events) ≡ wide_book 4096 128 254 254 1 }
    ensures late { book_after usual_device wide_events ≡ wide_book 4128 129 256 258 1 }
{}

/// A filter of two taps: each frame as it is, and then its mean with the next one. -3 and 4 give
/// -3, 1, 4 and 2.
pub fn two_taps_at_half_the_rate()
    ensures verdict { judged filtered_device filtered_text ≡ accepted filtered_script }
    ensures device { played filtered_device filtered_script ≡ ring_of_silence ++ filtered_bytes }
    ensures lines { printed filtered_device filtered_script ≡ filtered_lines }
    ensures over { book_after filtered_device filtered_script.events ≡ filtered_book }
{}

/// A filter of 64 taps eats 32 frames before it gives the first one, so that a ring of one frame is
/// enough: it is short 32 times, and then the first frame is heard.
pub fn sixty_four_taps_eat_ahead()
    ensures before { book_after ahead_device (take 66 ahead_script.events) ≡ ahead_book 1024 32 0 0 }
    ensures first { book_after ahead_device (take 68 ahead_script.events) ≡ ahead_book 1056 33 1 33 }
    ensures device { played ahead_device ahead_script ≡ replicate 1152 0 ++ ahead_frame }
{}
