//! Reads the text of a configuration, which settles the device, its files and its filters.
//! Every key may be left out, and a text is refused for the first fault that applies.
#![tactic(auto)]

mod config;
mod fault;
mod files;
mod filter;
mod hardware;
mod laws;
mod layout;
mod limits;
mod lists;
mod lookup;
mod mix;
mod number;
mod place;
mod reader;
mod rows;
mod section;
mod sets;
mod shape;
mod slots;
mod tables;
mod whole;

pub use config::{Config, Container, FilePath, FilePaths, Name, default_config};
pub use fault::{ConfigFault, ConfigKind, ConfigRefusal};
pub use files::FILE_NAME_BYTES;
pub use filter::FILTER_KEYS;
pub use laws::an_empty_text_is_the_usual;
pub use limits::CONFIG_BYTES;
pub use place::ConfigPlace;
pub use reader::{DEVICE_KEYS, TOP_KEYS, VCHANS_KEYS, config_of};
pub use section::SECTION_KEYS;
pub use sets::range_at;
