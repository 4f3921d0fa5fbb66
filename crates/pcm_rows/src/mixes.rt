//! Mixes with settings of their own: how many frames an interrupt mixes, and what the device gets of them.
#![tactic(auto, unfolding(crate::proofs::Computing::row))]

ghost use Rattle.std.specs.Prelude.{◌≡◌, ◌+◌, ◌∷◌, ◌++◌, [], pos, replicate, take, true, ℕ};
ghost use Rattle.pcm_format.specs.declared.layout.Layout.TheVariants.{One, Two, Six};
ghost use Rattle.pcm_desk.specs.Channels.{mixed_by};
ghost use Rattle.pcm_desk.specs.Device.{DeviceSeen, is_straight, mixed_for, parent_plan, play_plan_between, record_plan_between};
ghost use Rattle.pcm_desk.specs.Usual.{usual_device, usual_settings};
ghost use Rattle.pcm_feeder.specs.declared.stage.Spec.TheVariants.{Matrix, Linear};
ghost use Rattle.pcm_sound.specs.DeviceList.{device_frames, device_list};
ghost use Rattle.pcm_sound.specs.Gains.{Faders};
ghost use Rattle.pcm_sound.specs.Mix.{Table};
ghost use Rattle.pcm_verdict.specs.Transcript.{transcript};
ghost use Rattle.pcm_rows.specs.Calls.{accepted, book_after, judged, little_endian, plainly_played, played, printed, softer_from, stereo_bytes, story_after, told_at, unity_from};
ghost use Rattle.pcm_rows.specs.ClientRates.{half_settings};
ghost use Rattle.pcm_rows.specs.FilterRows.{tens};
ghost use Rattle.pcm_rows.specs.PlanRows.{plan_16, sixteen_bits};
ghost use Rattle.pcm_rows.specs.RecordingRows.{mic_pool, mono_settings};
ghost use Rattle.pcm_rows.specs.Stages.{levels, twice_each};
ghost use Rattle.pcm_rows.specs.MixRows.{filter_mixed, half_line, half_mixed, half_mono, hold_mixed, late_answers, late_play, late_play_run, late_recording, late_story, line_bytes, line_mixed, line_script, line_text, loud_pair_script, loud_pair_text, mix_behind_silence, mix_with, mono_mixed, plan_from, plan_to_two, section_mixed, sides_script, sides_text, single_script, starving_book, starving_lines, starving_run, starving_script, starving_text, twice_mixed};

/// The device gets the mix through a plan of its own, which has neither a volume nor an equaliser: the
/// rate is changed where there are fewer channels, and the depth comes last.
pub fn plans_from_the_mix()
    ensures usual { plan_from usual_settings ≡ plan_to_two Two [] }
    ensures half { plan_from half_settings ≡ plan_to_two Two (half_line 2 ∷ []) }
    ensures mono { plan_from mono_settings ≡ plan_to_two One (Matrix One Two ∷ []) }
    ensures both { plan_from half_mono ≡ plan_to_two One (half_line 1 ∷ Matrix One Two ∷ []) }
    ensures six { plan_from (sixteen_bits Six 96000)
        ≡ plan_to_two Six (Matrix Six Two ∷ Linear 96000 48000 2 ∷ []) }
    ensures section { parent_plan section_mixed ≡ plan_to_two Two (half_line 2 ∷ []) }
{}

/// A client that plays comes into the settings of the mix, and one that records goes by those of the
/// device.
pub fn plans_into_the_mix()
    ensures same { play_plan_between half_mixed half_settings ≡ plan_16 Two Two [] }
    ensures device { play_plan_between half_mixed usual_settings
        ≡ plan_16 Two Two (Linear 48000 24000 2 ∷ []) }
    ensures mono { play_plan_between mono_mixed usual_settings
        ≡ plan_16 Two One (Matrix Two One ∷ []) }
    ensures recording { record_plan_between half_mixed usual_settings ≡ plan_to_two Two [] }
{}

/// Whatever is mixed in the channels, the rate and the bits of the device is handed over as it is.
pub fn a_straight_device_gets_the_mix()
    ensures list { (device : DeviceSeen) (faders : Faders) (table : Table) (handed : ℕ) → is_straight device ≡ true
        → device_list device faders table handed ≡ mix_behind_silence device faders table handed }
    ensures usual { is_straight usual_device ≡ true }
{}

/// At half the rate every other frame lies on one of the mix, and a line needs the next one too: 4, 5
/// and 6 frames need 3, 4 and 4.
pub fn a_mix_at_half_the_rate()
    ensures four { mixed_by half_mixed 0 4 ≡ 3 }
    ensures fifth { mixed_by half_mixed 4 1 ≡ 1 }
    ensures sixth { mixed_by half_mixed 5 1 ≡ 0 }
    ensures hold { mixed_by hold_mixed 0 4 ≡ 2 }
{}

/// At twice the rate frame k lies on frame 2 * k of the mix, and a line needs the next one too.
pub fn a_mix_at_twice_the_rate()
    ensures first { mixed_by twice_mixed 0 1 ≡ 2 }
    ensures second { mixed_by twice_mixed 1 1 ≡ 2 }
    ensures four { mixed_by twice_mixed 0 4 ≡ 8 }
{}

/// A filter of four taps needs two frames ahead: so the first frame is mixed with two more, and the
/// second mixes none. Where nothing is handed over, nothing is mixed.
pub fn a_filter_mixes_ahead()
    ensures none { mixed_for filter_mixed 0 ≡ 0 }
    ensures first { mixed_for filter_mixed 1 ≡ 1 + 2 }
    ensures second { mixed_by filter_mixed 1 1 ≡ 0 }
    ensures third { mixed_by filter_mixed 2 1 ≡ 1 }
    ensures frames { device_frames filter_mixed (mix_with tens) 6 0 6
        ≡ twice_each (pos 432 ∷ pos 321 ∷ pos 210 ∷ []) }
{}

/// Two frames where three are mixed, then one more, and then none: the first two interrupts are short,
/// and the third isn't, as it wants nothing.
pub fn nothing_mixed_is_no_shortage()
    ensures verdict { judged half_mixed starving_text ≡ accepted starving_script }
    ensures lines { printed half_mixed starving_script ≡ starving_lines }
    ensures first { book_after half_mixed (take 4 starving_script.events) ≡ starving_book 1 }
    ensures second { book_after half_mixed (take 5 starving_script.events) ≡ starving_book 2 }
    ensures third { book_after half_mixed (take 6 starving_script.events) ≡ starving_book 2 }
    ensures told { book_after half_mixed starving_script.events ≡ told_at 8 (starving_book 0) }
    ensures runs { (story_after half_mixed starving_script).runs 0 ≡ starving_run ∷ [] }
    ensures handed { (story_after half_mixed starving_script).desk.handed ≡ 6 }
    ensures mixed { (story_after half_mixed starving_script).desk.mixed ≡ 4 }
{}

/// Between 0, 100 and 200 of the mix the device gets 50 and 150, and after them lines go down to
/// silence. A hold gives each of them twice.
pub fn lines_between_mixed_frames()
    ensures frames { device_frames line_mixed (mix_with (levels (0 ∷ 100 ∷ 200 ∷ []))) 4 0 4
        ≡ levels (0 ∷ 50 ∷ 100 ∷ 150 ∷ []) }
    ensures held { device_frames hold_mixed (mix_with (levels (0 ∷ 100 ∷ 200 ∷ []))) 4 0 4
        ≡ levels (0 ∷ 0 ∷ 100 ∷ 100 ∷ []) }
    ensures verdict { judged line_mixed line_text ≡ accepted line_script }
    ensures device { played line_mixed line_script ≡ line_bytes }
    ensures plain { plainly_played line_mixed line_script ≡ line_bytes }
    ensures single { played line_mixed single_script ≡ line_bytes }
{}

/// Each side goes into one channel by half, and that one to both sides: 100 and 300 are 200.
pub fn one_channel_under_two()
    ensures verdict { judged mono_mixed sides_text ≡ accepted sides_script }
    ensures device { played mono_mixed sides_script ≡ replicate 16 0 ++ stereo_bytes (200 ∷ []) }
{}

/// The mix is limited before lines are drawn: 30000 and 10000 are 32767, and half of that is 16383.
pub fn the_mix_is_limited_first()
    ensures verdict { judged line_mixed loud_pair_text ≡ accepted loud_pair_script }
    ensures device { played line_mixed loud_pair_script
        ≡ replicate 8 0 ++ little_endian (32767 ∷ 16383 ∷ 0 ∷ 0 ∷ []) }
{}

/// A run starts after the frames that were mixed, and there a volume is set: three are mixed for the
/// first four, and a fourth for the fifth.
pub fn runs_go_by_what_is_mixed()
    ensures runs { (story_after half_mixed late_play).runs 0 ≡ late_play_run ∷ [] }
    ensures gains { (story_after half_mixed late_play).gains 0 ≡ softer_from 4 ∷ unity_from 3 ∷ [] }
{}

/// A recording starts after the frames that were handed over, and an interrupt that mixes none brings
/// it a frame.
pub fn recordings_go_by_what_is_handed_over()
    ensures start { (late_story.recordings 0).start ≡ 4 }
    ensures kept { (late_story.recordings 0).kept ≡ stereo_bytes (5 ∷ 6 ∷ []) }
    ensures handed { late_story.desk.handed ≡ 6 }
    ensures mixed { late_story.desk.mixed ≡ 4 }
    ensures lines { transcript half_mixed mic_pool late_recording ≡ late_answers }
{}
