//! Waves of integer PCM, and the pool of data files that a run reads from.
//! What is written as a wave is read back as the same settings and the same body.
#![tactic(auto)]

mod capture;
mod chunk;
mod data_file;
mod format;
mod format_chunk;
mod laws;
mod pool;
mod read;
mod wave;
mod written;

pub use data_file::{DataFile, DataFiles};
pub use format::is_wave_format;
pub use laws::{waves_are_within_the_limits, what_is_written_is_read_back};
pub use pool::{DATA_BYTES, Pool, Source};
pub use read::read_wave;
pub use wave::{Wave, WaveFault};
pub use written::{BODY_BYTES, HEADER_BYTES, header};
