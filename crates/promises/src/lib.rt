//! What a rack promises of all runs of calls.
//!
//! `specs/` says what one call gives and leaves, and what is promised of every list of calls on a rack that was new: `Promised.antt` has
//! the promises. The functions here do nothing: each has a statement for its contract, so that it is proved.
#![tactic(auto)]

pub mod outcome;

ghost use Rattle.table.specs.Tables.{Ruled};
ghost use Rattle.promises.specs.Promised.{Promises};
ghost use Rattle.promises.specs.Refusals.{Refusing};
ghost use Rattle.promises.specs.Requests.{Setup};
ghost use Rattle.promises.specs.Show.{Exchanges, show_rack};
ghost use Rattle.promises.specs.Stored.{AnsweredInStore};
ghost use Rattle.promises.specs.Wires.{Lawful, LawfulCall, call_over, wire_of};

use line::framing::Framing;

/// The promises hold of every rack whose table keeps the rules of tables, at any node.
pub fn promises_stand() -> u8
    ensures { (s : Setup) → Ruled s.rows s.limits → Promises s }
{
    0
}

/// Every framing keeps, without its marks, what the promises ask of it.
pub fn framing_stands<F: Framing>(f: &F) -> u8
    ensures { Lawful (wire_of (F.Framing.rule f.now)) }
{
    0
}

/// So every call that hands in a frame is one that the promises speak of.
pub fn calls_stand<F: Framing>(f: &F, frame: &[u8], buffer: &[u8]) -> u8
    ensures { LawfulCall (call_over (F.Framing.rule f.now) frame.now buffer.now) }
{
    framing_stands(f)
}

/// A store that keeps the items of a call one after the other holds what the promises speak of.
pub fn storing_stands() -> u8
    ensures { AnsweredInStore }
{
    0
}

/// A call is refused for a short buffer and for nothing else, and what is refused or tells a fault changes no value, in every framing.
pub fn refusing_stands<F: Framing>(f: &F, frame: &[u8], buffer: &[u8]) -> u8
    ensures { Refusing (call_over (F.Framing.rule f.now) frame.now buffer.now) }
{
    0
}

/// The exchanges with the show rack, byte by byte, and that its table keeps the rules of tables.
pub fn exchanges_stand() -> u8
    ensures exchanges { Exchanges }
    ensures table { Ruled show_rack.rows show_rack.limits }
{
    0
}
