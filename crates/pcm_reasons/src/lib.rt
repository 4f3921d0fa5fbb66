//! Why a word of a script or a value of a configuration is refused, and what would be right, as a line says it.
#![tactic(auto)]

mod array_reason;
mod filter_reason;
mod forms;
mod key_reason;
mod kind_reason;
mod listed;
mod of_config;
mod of_word;
mod section_reason;
mod shape_reason;
mod showing;
mod value_reason;
mod wanted;
mod whole_reason;

pub use forms::forms_of;
pub use listed::commands;
pub use of_config::config_reason;
pub use of_word::word_reason;
pub use showing::{quoted, shown};
