//! One stage of a chain, under one interface: what it is fitted to, and what it eats and gives.
//! Whichever box a rack has, the frames that it gives are one function of all frames that it has eaten.
#![tactic(auto)]

mod fade;
mod feeder;
mod gains;
mod history;
mod kind;
mod last_frames;
mod laws;
mod limits;
mod map_feeder;
mod pace;
mod rack;
mod section;
mod stage;
mod sums;
mod table;

pub use fade::apply_gain;
pub use feeder::Feeder;
pub use gains::{put_frame, side_gains};
pub use history::{frame_among, move_on};
pub use kind::Kind;
pub use last_frames::LastFrames;
pub use laws::{
    a_feed_continues_its_stream, a_stage_resumes_what_it_kept, allowed_outputs_reach_no_further,
    frames_are_samples, outputs_use_what_is_needed, silence_stays_silence,
    stages_without_a_rate_map_frames,
};
pub use limits::{
    COEF_MOST, FILTERS, PHASES, SECTION_COEF_MOST, SECTION_SHIFT_MOST, SECTIONS, SHIFT_MOST,
    TABLE_COEFS, TAPS,
};
pub use map_feeder::{FrameMap, MapFeeder};
pub use pace::{Pace, Step};
pub use rack::{
    RACKS, Rack, RackFault, RackOf, Racks, RacksOf, Seven, SevenOf, WrongCount, WrongKind,
};
pub use section::Section;
pub use stage::{AT_REST, Gain, Moved, Progress, Pull, Spec, UNITY};
pub use sums::{product, scaled_down};
pub use table::{Coefs, Table, Tables};
