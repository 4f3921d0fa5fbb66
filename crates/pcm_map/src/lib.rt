//! A channel whose area is mapped: its client writes anywhere in it at any time, and the device takes what stands there.
//! What stood for a book and the bytes that were taken stands, after each call, for the book and bytes that the rules say.
#![tactic(auto)]

mod area;
mod channel;

pub use channel::{MapChannel, MapChannelOf};
