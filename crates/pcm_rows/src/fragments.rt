//! Whole fragments, which start a stream and fill a ring.
#![tactic(auto, unfolding(crate::proofs::Computing::row))]

ghost use Rattle.std.specs.Prelude.{◌≡◌, ◌∷◌, [], take};
ghost use Rattle.pcm_desk.specs.declared.play_book.PlayState.TheVariants.{Running};
ghost use Rattle.pcm_desk.specs.Usual.{usual_device};
ghost use Rattle.pcm_rows.specs.Calls.{accepted, judged, played, printed, book_after, story_after, unity_from};
ghost use Rattle.pcm_rows.specs.Fragments.{starved_text, starved_script, starved_bytes, starved_lines, starved_book, starved_run, full_ring_text, full_ring_script, full_ring_lines};

/// A full fragment starts a stream that nobody closed.
pub fn full_fragment_starts()
    ensures verdict { judged usual_device starved_text ≡ accepted starved_script }
    ensures device { played usual_device starved_script ≡ starved_bytes }
    ensures lines { printed usual_device starved_script ≡ starved_lines }
    ensures started { (book_after usual_device (take 2 starved_script.events)).state ≡ Running }
{}

/// Each interrupt that is short is counted once. A frame that comes late is heard late, and none is left out.
pub fn shortage_sets_back()
    ensures none { (book_after usual_device (take 3 starved_script.events)).underruns ≡ 0 }
    ensures one { (book_after usual_device (take 4 starved_script.events)).underruns ≡ 1 }
    ensures all { book_after usual_device starved_script.events ≡ starved_book }
    ensures runs { (story_after usual_device starved_script).runs 0 ≡ starved_run ∷ [] }
    ensures gains { (story_after usual_device starved_script).gains 0 ≡ unity_from 0 ∷ [] }
{}

/// A ring holds four fragments, and a write to a full one is refused.
pub fn fifth_write_again()
    ensures verdict { judged usual_device full_ring_text ≡ accepted full_ring_script }
    ensures device { played usual_device full_ring_script ≡ [] }
    ensures lines { printed usual_device full_ring_script ≡ full_ring_lines }
{}
