//! The engine: descriptors, channels and the device's ring, stepped one event at a time.
//! After any list of events it stands for them: its books, rings, chains and bytes are those of their story.
#![tactic(auto)]

mod brought;
mod calls;
mod clients;
mod counts;
mod descriptors;
mod engine;
mod grouped;
mod interrupts;
mod laws;
mod limits;
mod load_fault;
mod mixer_calls;
mod places;
mod state;
mod tables;
mod views;

pub use brought::{bytes_asked, bytes_handed, samples_asked};
pub use descriptors::member_refusal;
pub use engine::{Engine, EngineOf};
pub use laws::{engines_are_known_by_their_states, engines_stand_with_alike_pools};
pub use limits::LIFE;
pub use load_fault::LoadFault;
