//! Calls that do not meet may change places: a theorem on lists of calls. It knows of rows that calls write and concern, and nothing
//! of what the rows hold or how a call came in.
//!
//! `docs/ORDER.md` tells the theorem and its proof in words. Its words are defined in `specs/Calls.antt` (calls, what is asked of
//! them, when two meet, what a run gives) and `specs/Reordering.antt` (rearranged lists, and the theorem). The functions here do
//! nothing: each has a statement for its contract, so that it is proved. `registers` has calls to which the theorem applies.
#![tactic(auto)]

pub mod registers;

ghost use Rattle.order.specs.Calls.{Calls};
ghost use Rattle.order.specs.Last.{Lasts};
ghost use Rattle.order.specs.Mixing.{Mixing};
ghost use Rattle.order.specs.Reordering.{Reordering};
ghost use Rattle.order.specs.Runs.{Runs};

/// Calls that may be recast: `recast c d` says that `d` is `c` recast.
pub trait Recast {
    ghost recast: { Self → Self → Type 0 };
}

/// Outcomes that may differ and still count as the same, as one message does in two framings.
pub trait Same {
    ghost same: { Self → Self → Type 0 };
}

/// The theorem on order. A list of calls may be rearranged, and its calls recast, where any two that meet keep their order: each
/// call then has the same outcome as before, and the states at the end agree at every row.
pub fn reordering_stands<Call: Recast, Outcome: Same, Value, State>() -> u8
    ensures { Reordering Value State Call.Recast.recast Outcome.Same.same }
{
    0
}

/// Two lists may mix in any way where no call of the one meets a call of the other: what comes of it is the first list and then
/// the second, rearranged.
pub fn mixing_stands<Call: Recast, Outcome, Value, State>() -> u8
    ensures { (calls : Calls Call Outcome Value State) → Mixing calls Call.Recast.recast }
{
    0
}

/// What a run gives: the outcome at each place, and what comes of two lists joined.
pub fn runs_stand<Call, Outcome, Value, State>() -> u8
    ensures { (calls : Calls Call Outcome Value State) → Runs calls }
{
    0
}

/// The last value that the elements of a list give: which one it is, and what it is for two lists joined.
pub fn last_stands<Element, Value>() -> u8
    ensures { Lasts Element Value }
{
    0
}
