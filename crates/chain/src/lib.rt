//! Chains: what the data of a message asks of the rows of a table, taken apart item by item and checked from left to right.
//!
//! Places are indexes of data bytes: the command is at 0, so that a chain starts at 1.
//!
//! ```text
//! write:  01 or 02 | g | q value | q value .. | g | q value ..
//! read:         04 | g | x p q   | x p q   .. | g | x p q   ..
//!
//! g  process byte            80: another group follows       7F: the process
//! q  parameter byte          80: another item follows        60: the type    1F: the parameter
//! x  index byte of a read    80: another item follows        60: the type    1F: free
//! ```
//!
//! A read names its row by p and q, and its g and x are only repeated in the answer. A text's p and q are followed by
//! its length. `docs/PROTOCOL.md` has the whole of it.
#![tactic(auto)]

pub mod access;
pub mod answer;
pub mod check;
mod cursor;
pub mod fault;
pub mod item;
pub mod reader;
mod reads;
mod values;
mod writes;
