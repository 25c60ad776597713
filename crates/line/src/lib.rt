//! Messages on the line, and what every framing of them keeps.
#![tactic(auto)]

pub mod fault;
pub mod framable;
pub mod framing;
pub mod message;
pub mod refusal;
