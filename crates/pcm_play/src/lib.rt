//! A channel that plays: one book, one ring and one chain.
//! What stood for a book and the bytes of its run stands, after each call, for the book and bytes that the rules say.
#![tactic(auto)]

mod channel;

pub use channel::{PlayChannel, PlayChannelOf};
