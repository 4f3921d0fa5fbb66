//! Mapped channels: what the device takes of an area that is written to meanwhile, and what their clients are answered.
#![tactic(auto, unfolding(crate::proofs::Computing::row))]

ghost use Rattle.std.specs.Prelude.{◌≡◌, ◌∷◌, ◌++◌, [], replicate};
ghost use Rattle.std.specs.List.{range_with_len};
ghost use Rattle.pcm_format.specs.declared.format.Format.TheVariants.{S24Le, U8, U16Be};
ghost use Rattle.pcm_oss.specs.declared.event.Way.TheVariants.{Play, Map};
ghost use Rattle.pcm_desk.specs.Desk.{slot_number};
ghost use Rattle.pcm_sound.specs.Areas.{area_bytes, poked, silent_byte};
ghost use Rattle.pcm_sound.specs.OwnAreas.{own_pokes};
ghost use Rattle.pcm_script.specs.Lines.{pool_of};
ghost use Rattle.pcm_rows.specs.Calls.{accepted, judged, played, plainly_played, printed, ring_of_silence, stereo_bytes, story_after};
ghost use Rattle.pcm_rows.specs.MappedRows.{crowded_script, its_area, its_pokes, lone_script, mapped_device, mapped_requests, other_area, poked_lines, poked_script, poked_text, recut_script, replies_of, round_bytes, round_lines, round_script, round_text, running_map, running_replies, small_mapped, stopped_map_bytes, stopped_map_runs, stopped_map_script, two_mapped};

/// The device takes what stands in the area when it comes there: of two frames that were poked the second is poked again before it is taken.
pub fn a_poke_changes_what_was_not_taken()
    ensures verdict { judged mapped_device poked_text ≡ accepted poked_script }
    ensures device { played mapped_device poked_script ≡ ring_of_silence ++ stereo_bytes (1 ∷ 9 ∷ 0 ∷ []) }
    ensures lines { printed mapped_device poked_script ≡ poked_lines }
{}

/// An area goes round, though nobody reads of it. What is poked may reach up to its end, and not past it.
pub fn an_area_goes_round()
    ensures verdict { judged mapped_device round_text ≡ accepted round_script }
    ensures device { played mapped_device round_script ≡ ring_of_silence ++ round_bytes }
    ensures lines { printed mapped_device round_script ≡ round_lines }
{}

/// A halt ends a run and leaves the area, so that another begins with its first byte again. A close ends a run where it is.
pub fn a_halt_leaves_the_area()
    ensures device { played small_mapped stopped_map_script ≡ stopped_map_bytes }
    ensures plain { plainly_played small_mapped stopped_map_script ≡ stopped_map_bytes }
    ensures runs { (story_after small_mapped stopped_map_script).map_runs 0 ≡ stopped_map_runs }
{}

/// What stands in an area is the same among others and by itself, at whatever descriptor.
pub fn an_area_among_others()
    ensures among { (story_after two_mapped crowded_script).areas 0 ≡ its_area }
    ensures alone { (story_after two_mapped lone_script).areas 0 ≡ its_area }
    ensures other { (story_after two_mapped crowded_script).areas 1 ≡ other_area }
    ensures pokes_among { own_pokes (pool_of [] crowded_script) 0 crowded_script.events ≡ its_pokes }
    ensures pokes_alone { own_pokes (pool_of [] lone_script) 5 lone_script.events ≡ its_pokes }
{}

/// Where another format is set, the area is silent again, in that format.
pub fn another_format_silences_the_area()
    ensures { (story_after small_mapped recut_script).areas 0 ≡ replicate 32 128 }
{}

/// Bytes past the last one are the first ones again, in the middle of a sample too: here of samples of three bytes in an area of 32.
pub fn bytes_go_round_in_an_area()
    ensures middle { area_bytes (range_with_len 0 32) 30 3 ≡ 30 ∷ 31 ∷ 0 ∷ [] }
    ensures twice { area_bytes (7 ∷ 8 ∷ []) 5 4 ≡ 8 ∷ 7 ∷ 8 ∷ 7 ∷ [] }
{}

/// What is poked may end with the area. Of what would pass its end nothing is written.
pub fn pokes_at_the_end_of_an_area()
    ensures last { poked 2 (8 ∷ 9 ∷ []) (1 ∷ 2 ∷ 3 ∷ 4 ∷ []) ≡ 1 ∷ 2 ∷ 8 ∷ 9 ∷ [] }
    ensures past { poked 3 (8 ∷ 9 ∷ []) (1 ∷ 2 ∷ 3 ∷ 4 ∷ []) ≡ 1 ∷ 2 ∷ 3 ∷ 4 ∷ [] }
    ensures nothing { poked 4 [] (1 ∷ 2 ∷ 3 ∷ 4 ∷ []) ≡ 1 ∷ 2 ∷ 3 ∷ 4 ∷ [] }
{}

/// Silence is spelled in the format of the opening.
pub fn silence_of_an_area()
    ensures signed { silent_byte S24Le 31 ≡ 0 }
    ensures unsigned { silent_byte U8 31 ≡ 128 }
    ensures high { silent_byte U16Be 30 ≡ 128 }
    ensures low { silent_byte U16Be 31 ≡ 0 }
{}

/// Mapped channels are numbered after all that may play.
pub fn numbers_of_mapped_channels()
    ensures playing { slot_number 4 Play 3 ≡ 3 }
    ensures first { slot_number 4 Map 0 ≡ 4 }
    ensures third { slot_number 4 Map 2 ≡ 6 }
{}

/// After ten frames were taken of an area of eight, the next byte is the ninth. Space and delay are refused, and no settings can be set.
pub fn requests_of_a_mapped_channel_that_runs()
    ensures { replies_of running_map mapped_requests ≡ running_replies }
{}
