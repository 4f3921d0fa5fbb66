//! The mixer device: the gains of slots and of all that is mixed, and what is answered of them.
#![tactic(auto, unfolding(crate::proofs::Computing::row))]

ghost use Rattle.std.specs.Prelude.{◌≡◌, ◌∷◌, ◌++◌, [], replicate};
ghost use Rattle.pcm_oss.specs.declared.mix_request.MixRequest.TheVariants.{SetMaster, SetSlot};
ghost use Rattle.pcm_wave.specs.declared.pool.Pool.{Pool};
ghost use Rattle.pcm_mixdev.specs.Mixers.{full_mixer};
ghost use Rattle.pcm_desk.specs.Usual.{usual_device};
ghost use Rattle.pcm_verdict.specs.Transcript.{transcript};
ghost use Rattle.pcm_rows.specs.Calls.{accepted, judged, little_endian, played, plainly_played, printed, ring_of_silence, small_device, small_story, softer_from, stereo_bytes, story_after};
ghost use Rattle.pcm_rows.specs.MappedRows.{small_mapped};
ghost use Rattle.pcm_rows.specs.MixRows.{half_mixed, mono_mixed};
ghost use Rattle.pcm_rows.specs.MixerRows.{faded_bytes, faded_lines, faded_script, faded_text, half_from, kept_lines, kept_script, late_gain_script, mapped_slot_lines, mapped_slot_script, master_lines, master_script, master_text, mixer_events, mixer_lines, muted_bytes, muted_lines, muted_run, muted_script, next_script, nothing_from, quiet_pair, side_script, unmixed_lines, unmixed_script, unmixed_text};

/// A slot is at half the gain on the right side, where -3 is -2, and its third frame is mixed while it is muted.
pub fn a_slot_is_softer_and_muted()
    ensures verdict { judged usual_device faded_text ≡ accepted faded_script }
    ensures device { played usual_device faded_script ≡ ring_of_silence ++ faded_bytes }
    ensures lines { printed usual_device faded_script ≡ faded_lines }
{}

/// All that is mixed is limited first: 30000 and 10000 are 32767, and half of that is 16383. Half of their sum would be 20000.
pub fn the_master_comes_after_the_limit()
    ensures verdict { judged usual_device master_text ≡ accepted master_script }
    ensures device { played usual_device master_script ≡ ring_of_silence ++ stereo_bytes (16383 ∷ []) }
    ensures lines { printed usual_device master_script ≡ master_lines }
{}

/// The gain of a slot comes before the limit: half of 30000 and 10000 are 25000.
pub fn the_gain_of_a_slot_comes_before_the_limit()
    ensures device { played small_device quiet_pair ≡ replicate 16 0 ++ stereo_bytes (25000 ∷ []) }
    ensures plain { plainly_played small_device quiet_pair ≡ replicate 16 0 ++ stereo_bytes (25000 ∷ []) }
{}

/// Four channels play on the usual device, and none is mapped: there is no slot 4. A volume is at most 100 on each side, and has no higher
/// bit. What is refused changes nothing.
pub fn refusals_of_the_mixer_device()
    ensures verdict { judged usual_device unmixed_text ≡ accepted unmixed_script }
    ensures lines { printed usual_device unmixed_script ≡ unmixed_lines }
    ensures mixer { (story_after usual_device unmixed_script).desk.mixer ≡ full_mixer }
{}

/// All volumes begin at 100 on both sides. A mute leaves the volume of its slot, and what is set of one slot that of the others.
pub fn volumes_are_told()
    ensures lines { (pool : Pool) → transcript usual_device pool mixer_events ≡ mixer_lines }
{}

/// A volume is of the slot, and stays when it is closed: the next client is heard at it. So does a mute, which a slot may have before
/// it is open.
pub fn volumes_stay_behind_a_close()
    ensures device { played small_device kept_script ≡ replicate 16 0 ++ stereo_bytes (50 ∷ []) }
    ensures plain { plainly_played small_device kept_script ≡ replicate 16 0 ++ stereo_bytes (50 ∷ []) }
    ensures lines { printed small_device kept_script ≡ kept_lines }
{}

/// What is set counts from the next frame on that is mixed, and leaves those in the device's ring: 100, 50 by the slot, and 25 by both.
/// Of a mix at half the rate three frames are mixed for the first four, and a fourth for the fifth.
pub fn gains_count_from_the_next_frame()
    ensures device { played small_device next_script ≡ replicate 16 0 ++ stereo_bytes (100 ∷ 50 ∷ 25 ∷ 25 ∷ []) }
    ensures plain { plainly_played small_device next_script ≡ replicate 16 0 ++ stereo_bytes (100 ∷ 50 ∷ 25 ∷ 25 ∷ []) }
    ensures slot { (small_story next_script).faders.slots 0 ≡ half_from 1 ∷ [] }
    ensures other { (small_story next_script).faders.slots 1 ≡ [] }
    ensures master { (small_story next_script).faders.master ≡ half_from 2 ∷ [] }
    ensures mixed_slot { (story_after half_mixed late_gain_script).faders.slots 0 ≡ softer_from 4 ∷ nothing_from 4 ∷ [] }
    ensures mixed_master { (story_after half_mixed late_gain_script).faders.master ≡ half_from 3 ∷ [] }
{}

/// The low byte is the left side, and the next one the right side, of a slot and of all that is mixed. A mix of one channel has the mean
/// of both: 100 and 300 are 200 there, and half of it is heard.
pub fn left_and_right_are_told_apart()
    ensures slot { played small_device (side_script (SetSlot 0 0x3264)) ≡ replicate 16 0 ++ little_endian (100 ∷ 150 ∷ []) }
    ensures master { played small_device (side_script (SetMaster 0x6432)) ≡ replicate 16 0 ++ little_endian (50 ∷ 300 ∷ []) }
    ensures mean { played mono_mixed (side_script (SetSlot 0 100)) ≡ replicate 16 0 ++ stereo_bytes (100 ∷ []) }
{}

/// The run of a muted slot goes on: its first two frames pass unheard, its position counts them, and its shortages are counted.
pub fn a_muted_slot_goes_on()
    ensures device { played small_device muted_script ≡ muted_bytes }
    ensures lines { printed small_device muted_script ≡ muted_lines }
    ensures runs { (small_story muted_script).runs 0 ≡ muted_run ∷ [] }
{}

/// A mapped slot has its number after all that may play, and half of 100 is heard of it.
pub fn a_mapped_slot_has_a_gain()
    ensures device { played small_mapped mapped_slot_script ≡ replicate 16 0 ++ stereo_bytes (50 ∷ []) }
    ensures lines { printed small_mapped mapped_slot_script ≡ mapped_slot_lines }
{}
