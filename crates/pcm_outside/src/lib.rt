//! What the outside is to the core: files that are read and one that is written, and a sink for lines.
//! The forms in memory show contracts their contents and fail where asked to; the real forms are the edge to the system.
#![tactic(auto)]

mod byte_count;
mod calls;
mod mem_files;
mod mem_sink;
mod outside;
mod real_files;
mod real_sink;
mod room;
mod tally_files;
mod tally_sink;
mod transfer;

pub use mem_files::MemFiles;
pub use mem_sink::MemSink;
pub use outside::{Files, ReadFault, Sink, WriteFault};
pub use real_files::RealFiles;
pub use real_sink::RealSink;
pub use tally_files::TallyFiles;
pub use tally_sink::TallySink;
pub use transfer::{read_front, write_whole};
