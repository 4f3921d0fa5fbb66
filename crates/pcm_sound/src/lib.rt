//! What is heard: the runs of a script, what each slot gives at each position, the mix, and the device's bytes; and what is
//! recorded. It holds definitions and their laws, and no code.
#![tactic(auto)]

mod laws;

pub use laws::{
    alike_pools_tell_one_story, areas_go_alone, clients_are_told_alike,
    mapped_runs_are_never_short, members_start_as_one, pieces_stand_in_their_place,
    pokes_change_what_was_not_taken, reads_get_what_is_recorded, runs_are_heard_from_start_to_end,
    runs_of_a_slot_lie_apart, shortages_are_counted, the_mixer_sets_gains_from_the_next_frame,
    what_sounds_alike_has_equal_bytes,
};
