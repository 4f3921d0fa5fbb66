//! The books of the desk: what is counted of each opening, without a byte of sound.
//! Its definitions say what every event does to the books and what it is answered.
#![tactic(auto)]

mod device;
mod here;
mod laws;
mod limits;
mod map_book;
mod map_events;
mod map_requests;
mod opening;
mod play_book;
mod play_events;
mod play_requests;
mod record_book;
mod record_events;
mod record_requests;
mod run_requests;
mod run_state;
mod trigger;
mod turn;

pub use device::{Device, Held, OPENING, QUALITY_MOST};
pub use here::Here;
pub use laws::{
    books_stay_here, books_stay_in_order, descriptors_hold_apart, devices_hold_what_is_mixed,
    map_books_stay_in_order, members_wait_for_their_group, openings_stand_alone,
    record_books_stay_in_order, the_mixer_alone_sets_volumes,
};
pub use limits::{
    DESCRIPTORS, DEVICE_BYTES, EVENTS, MIX_FRAMES, READ_BYTES, RING_FRAMES, WRITE_BYTES,
};
pub use map_book::MapBook;
pub use opening::{ALL_FORMATS, CAPABILITIES, Opening};
pub use play_book::{PlayBook, PlayState};
pub use record_book::RecordBook;
pub use run_state::RunState;
pub use trigger::{PLAY_BIT, RECORD_BIT, has_other_bits};
pub use turn::Turn;
