//! Groups of channels that start together: which channel is a member of which, what a join gives, and who starts with whom.
#![tactic(auto)]

mod sync_groups;

pub use sync_groups::{GROUPS, Groups, may_join};
