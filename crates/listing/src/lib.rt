//! The listing: what is heard on the line, frame by frame.
#![tactic(auto)]

pub mod frames;
mod heard;
mod hex;
