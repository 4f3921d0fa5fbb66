//! The types of the Open Sound System: what clients ask by events and requests, and the replies.
//! Fragments and volumes are the numbers that requests carry.
#![tactic(auto)]

mod event;
mod fragments;
mod mix_request;
mod reply;
mod request;
mod volume;

pub use event::{Event, SLOTS, Way};
pub use fragments::{FRAGMENTS, Fragments, RING_BYTES};
pub use mix_request::MixRequest;
pub use reply::{Answer, Errno, REPLY_BYTES, ReplyBuf};
pub use request::Request;
pub use volume::{VOLUME, gain_of, is_volume};
