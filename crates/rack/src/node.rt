//! The node of a rack.
ghost use Rattle.std.specs.Prelude.{◌≤◌};

pub mod calls;

/// The number that a rack answers to, 3 to 120.
#[derive(Clone, Copy)]
pub struct Node {
    number: u8,
    ghost least: { 3 ≤ number },
    ghost greatest: { number ≤ 120 },
}
