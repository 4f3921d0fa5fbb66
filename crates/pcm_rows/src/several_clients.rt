//! Several clients in one mix.
#![tactic(auto, unfolding(crate::proofs::Computing::row))]

ghost use Rattle.std.specs.Prelude.{◌≡◌, ◌∷◌, ◌++◌, []};
ghost use Rattle.pcm_wave.specs.declared.pool.Pool.{Pool};
ghost use Rattle.pcm_desk.specs.Usual.{usual_device};
ghost use Rattle.pcm_verdict.specs.Transcript.{transcript};
ghost use Rattle.pcm_rows.specs.Calls.{accepted, judged, played, printed, ring_of_silence, stereo_bytes};
ghost use Rattle.pcm_rows.specs.SeveralClients.{limited_text, limited_script, unlimited_text, unlimited_script, three_lines, loud_frame, opens_text, opens_script, opens_lines, single_device, queue_events, queue_lines};

/// The mix is limited after each addition: 30000 and 10000 stop at 32767, and 10000 less is 22767.
pub fn three_clients_saturate()
    ensures verdict { judged usual_device limited_text ≡ accepted limited_script }
    ensures device { played usual_device limited_script ≡ ring_of_silence ++ stereo_bytes (22767 ∷ []) }
    ensures lines { printed usual_device limited_script ≡ three_lines }
{}

/// The same frames in other slots pass no limit: -10000, 20000, 30000.
pub fn three_clients_other_order()
    ensures verdict { judged usual_device unlimited_text ≡ accepted unlimited_script }
    ensures device { played usual_device unlimited_script ≡ ring_of_silence ++ loud_frame }
    ensures lines { printed usual_device unlimited_script ≡ three_lines }
{}

/// An open descriptor isn't opened again, and four clients play at once.
pub fn fifth_open_busy()
    ensures verdict { judged usual_device opens_text ≡ accepted opens_script }
    ensures device { played usual_device opens_script ≡ [] }
    ensures lines { printed usual_device opens_script ≡ opens_lines }
{}

/// A slot is free once the last frame of its drain was handed over, and not once it was mixed.
pub fn one_slot_free_after_handover()
    ensures lines { (pool : Pool) → transcript single_device pool queue_events ≡ queue_lines }
{}
