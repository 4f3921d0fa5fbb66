//! What holds of the scripts that numbers make: each function here has no work, and its contract is a law.

ghost use Rattle.std.specs.Prelude.{◌≡◌, ◌≤◌, ℕ, [], ◌∷◌, length};
ghost use Rattle.pcm_oss.specs.declared.event.Event.TheVariants.{Read, Ioctl};
ghost use Rattle.pcm_oss.specs.declared.request.Request.TheVariants.{GetODelay, GetOPtr, Speed, Sync};
ghost use Rattle.pcm_desk.specs.declared.limits.TheConstants.{DEVICE_BYTES};
ghost use Rattle.pcm_desk.specs.Events.{all_frames_taken};
ghost use Rattle.pcm_desk.specs.Usual.{usual_device};
ghost use Rattle.pcm_script.specs.Lines.{AllFit, bytes_taken};
ghost use Rattle.pcm_soak.specs.Events.{drawn_event};
ghost use Rattle.pcm_soak.specs.Soak.{drawn_events, events_of_seven, inline_bytes, soak_script};
ghost use Rattle.pcm_soak.specs.declared.limits.TheConstants.{SOAK_EVENTS, SOAK_FRAMES};

/// Each event fits the usual device and names bytes that are there, and the device takes no more than it may.
pub fn soak_scripts_fit()
    ensures fits { (n : ℕ) → AllFit usual_device [] (soak_script n) }
    ensures counts { (n : ℕ) → length (soak_script n).events ≡ SOAK_EVENTS }
    ensures sum { (n : ℕ) → (soak_script n).device_frames ≡ all_frames_taken (soak_script n).events }
    ensures frames { (n : ℕ) → (soak_script n).device_frames ≤ SOAK_FRAMES }
    ensures bytes { (n : ℕ) → bytes_taken usual_device (soak_script n) ≤ DEVICE_BYTES }
{}

/// Rows: what is drawn from 7 on, one event of some other numbers, and the first bytes that are written.
pub fn some_numbers_draw_so()
    ensures seven { drawn_events 7 7 ≡ events_of_seven }
    ensures read { (drawn_event 2).value ≡ Read 4 3559 }
    ensures question { (drawn_event 43).value ≡ Ioctl 5 GetOPtr }
    ensures delay { (drawn_event 19).value ≡ Ioctl 1 GetODelay }
    ensures order { (drawn_event 0).value ≡ Ioctl 0 Sync }
    ensures speed { (drawn_event 101).value ≡ Ioctl 2 (Speed 3999) }
    ensures bytes { inline_bytes 4 7 ≡ 7 ∷ 45 ∷ 145 ∷ 51 ∷ [] }
{}
