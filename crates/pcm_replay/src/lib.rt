//! The call of the program: words, files and a sink go in, and a status comes out.
//! `dsp_main` says exactly what is written, over any files and any sink that meet their traits.
#![tactic(auto)]

mod check;
mod commands;
mod playing;
mod refusals;
mod replay;
mod running;
mod tallied;
mod top;
mod writing;

pub use tallied::tally_main;
pub use top::dsp_main;
