//! What goes wrong on the line, before the data of a message is looked at.
ghost use Rattle.std.specs.Prelude.{◌≡◌};
ghost use Rattle.line.specs.Faults.{line_code, line_place};

use crate::refusal::Flaw;

/// Why a frame is not taken further than the line.
#[derive(Clone, Copy, PartialEq, Eq, Debug)]
pub enum LineFault {
    /// The frame cannot be read.
    Unreadable(Flaw),
    /// The message is for another node.
    OtherNode,
}

impl LineFault {
    /// The code of the fault: the flaw's number for a frame that cannot be read, 05 for another node.
    pub fn code(self) -> u8
        ensures { result ≡ line_code self }
    {
        // Matched, not cast: a case that holds a flaw has no number of its own.
        match self {
            LineFault::Unreadable(flaw) => flaw.number(),
            LineFault::OtherNode => 0x05,
        }
    }

    /// The place of the fault: 0.
    pub fn place(self) -> usize
        ensures { result ≡ line_place self }
    {
        match self {
            LineFault::Unreadable(_) | LineFault::OtherNode => 0,
        }
    }
}
