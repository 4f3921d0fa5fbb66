//! The cause of the line of a fault, for anyone who has to mend it. The files are read again for that, so what is said is of what
//! they hold by then.
#![tactic(auto)]

mod again;
mod causes;
mod chunk;
mod config_cause;
mod definition;
mod first_put;
mod judged;
mod line_reason;
mod lines;
mod numbers;
mod own_key;
mod said;
mod script_cause;
mod settled;
mod unread_cause;
mod wave_cause;
mod wave_format;
mod wrong_key;

pub use causes::cause_of;
pub use definition::definition_at;
pub use first_put::FirstPut;
