//! Which stages a stream goes through, in what order, and what comes out of them all.
//! A plan is a list of stages; what it gives is their functions over whole streams, composed.
#![tactic(auto)]

mod laws;
mod parts;
mod plan;
mod ways;

pub use laws::{
    gain_changes_nothing_without_a_volume, more_frames_change_no_output,
    outputs_have_the_channels_of_the_target, plans_fit, records_have_the_bits_of_the_client,
};
pub use plan::{Plan, STAGES};
pub use ways::{plan_play, plan_record};
