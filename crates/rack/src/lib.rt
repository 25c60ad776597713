//! The rack: it answers frames.
#![tactic(auto)]

mod frames;
mod message;
pub mod node;
pub mod rack;
mod replies;
