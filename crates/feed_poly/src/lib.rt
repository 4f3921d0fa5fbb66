//! A change of rate by a polyphase filter.
//! Each output is the sum of the frames around it, weighted by the row of the filter for its phase.
#![tactic(auto)]

mod poly;
mod row;
mod window;

pub use poly::PolyFeeder;
