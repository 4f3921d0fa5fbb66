//! A channel that records: one book, one chain and one ring.
//! What stood for a book, the bytes that were kept and the frames that were captured stands, after each call, for those that the
//! rules say.
#![tactic(auto)]

mod channel;

pub use channel::{RecordChannel, RecordChannelOf};
