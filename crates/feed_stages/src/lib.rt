//! The seven stages of this product as one type without boxes, and the racks of a run of them.
//! Each place of a rack has the stage of its kind.
#![tactic(auto)]

mod any;
mod racks;
mod stage;

pub use racks::stage_racks;
pub use stage::Stage;
