//! Devices, filters, requests and answers as numbers alone, for callers whose language has no types of this one.
//! Numbers that make none of these are refused before any memory is taken.
#![tactic(auto)]

mod answers;
mod call_fault;
mod device;
mod fault;
mod filters;
mod refusals;
mod requests;
mod sections;
mod tables;

pub use answers::{AnswerNumbers, numbers_of, refusal_number};
pub use call_fault::{CallFault, call_fault_number};
pub use device::{DeviceNumbers, device_from, is_rate, settings_from, way_from};
pub use fault::{NumbersFault, fault_number};
pub use filters::FilterNumbers;
pub use refusals::{
    AGAIN, BAD_DESCRIPTOR, BUSY, EXISTS, INVALID, LONG_STATE, NO_MEMORY, NOT_A_STATE,
    NOT_AN_ENGINE, OTHER_DEVICE, OUT_OF_ORDER, SHORT_ROOM, SHORT_STATE, UNSPELLED, WORN_OUT,
    WRONG_ARGUMENT,
};
pub use requests::{mix_request_from, request_from};
pub use sections::SectionNumbers;
pub use tables::tables_from;
