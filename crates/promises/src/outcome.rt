//! What an answering call gives back.
ghost use Rattle.std.specs.Prelude.{◌≡◌};
ghost use Rattle.promises.specs.Outcomes.{error_code, refusal_number};

use chain::fault::RackFault;

/// Why a call is refused.
#[derive(Clone, Copy, PartialEq, Eq, Debug)]
pub enum AnswerRefusal {
    /// The buffer lent for the answer has fewer than 138 bytes.
    ShortBuffer = 1,
}

/// The error messages that a rack answers with.
#[derive(Clone, Copy, PartialEq, Eq, Debug)]
pub enum ErrorReply {
    /// The frame cannot be read.
    Unreadable = 0x03,
    /// The message is for another node.
    OtherNode = 0x05,
}

/// What a call that is not refused gives.
// A length of 0 stands for no answer, so that what is told can be sent without a case for it.
#[derive(Clone, Copy, PartialEq, Eq, Debug)]
pub struct Answered {
    /// How many bytes of answer stand at the start of the buffer; 0 where there is no answer.
    pub len: usize,
    /// The fault, if there is one.
    pub fault: Option<RackFault>,
}

impl AnswerRefusal {
    /// The number of the refusal: 1.
    pub fn number(self) -> u8
        ensures { result ≡ refusal_number self }
    {
        // Each casts its own: a cast is no operation of a trait.
        self as u8
    }
}

impl ErrorReply {
    /// The code of the error message: 03 for a frame that cannot be read, 05 for another node.
    pub fn code(self) -> u8
        ensures { result ≡ error_code self }
    {
        self as u8
    }
}
