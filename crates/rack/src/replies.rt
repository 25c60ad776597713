// What answers a message.
ghost use Rattle.std.specs.Prelude.{◌≡◌, ◌<◌};
ghost use Rattle.line.specs.Calls.{said};
ghost use Rattle.chain.specs.declared.fault.RackFault.TheVariants.{Chain};
ghost use Rattle.chain.specs.Faults.{chain_place, rack_place};
ghost use Rattle.promises.specs.Replies.{fault_msg, status_msg};
ghost use Rattle.rack.specs.Replies.{message_of, no_command_msg, reply_of, reply_with};

use chain::answer::ReadAnswer;
use chain::fault::{ChainFault, RackFault};
use line::message::Message;
use promises::outcome::ErrorReply;

/// The command of a status.
const STATUS: u8 = 0x00;

/// The code of a status that tells no fault.
pub(crate) const DONE: u8 = 0x00;

/// A message that answers.
#[derive(Drop)]
pub(crate) enum Answer {
    /// A status: 00, its code and its index.
    Status { node: u8, bytes: [u8; 3] },
    /// The values that a read asks for.
    Read { node: u8, values: ReadAnswer },
    /// An error.
    Error(ErrorReply),
}

/// What is answered, if anything is, and the fault, if there is one.
#[derive(Drop)]
pub(crate) struct Served<A> {
    pub answer: Option<A>,
    pub fault: Option<RackFault>,
}

impl Answer {
    /// The status with this code and index.
    pub(crate) fn status(node: u8, code: u8, index: u8) -> Answer
        ensures { message_of result ≡ status_msg node code index }
    {
        Answer::Status {
            node,
            bytes: [STATUS, code, index],
        }
    }

    /// The message, as a framing takes it.
    pub(crate) fn message(&self) -> Message<'_>
        ensures { said result ≡ message_of self.now }
    {
        match self {
            Answer::Status { node, bytes } => Message::Data { node: *node, bytes },
            Answer::Read { node, values } => Message::Data {
                node: *node,
                bytes: values.as_slice(),
            },
            Answer::Error(error) => Message::Error { code: error.code() },
        }
    }
}

impl Served<Answer> {
    /// Answered, with no fault.
    pub(crate) fn answered(answer: Answer) -> Self
        ensures { reply_of result ≡ reply_with (Some (message_of answer)) None }
    {
        Served {
            answer: Some(answer),
            fault: None,
        }
    }

    /// Refused by a status with the code and the place of the fault.
    pub(crate) fn refused(node: u8, fault: RackFault) -> Self
        // Asked here and carried by no type: faults are made in three crates, and here alone a fault's place is sent as a byte.
        requires { rack_place fault < 256 }
        ensures { reply_of result ≡ reply_with (Some (fault_msg node fault)) (Some fault) }
    {
        Served {
            answer: Some(Answer::status(node, fault.code(), fault.place() as u8)),
            fault: Some(fault),
        }
    }

    /// Without a command for the rack: error 05 where the message is for another node, else a status.
    pub(crate) fn no_command(node: u8, fault: ChainFault) -> Self
        requires { chain_place fault < 256 }
        ensures { reply_of result ≡ reply_with (Some (no_command_msg node fault)) (Some (Chain fault)) }
    {
        match fault {
            ChainFault::Line(_) => Served {
                answer: Some(Answer::Error(ErrorReply::OtherNode)),
                fault: Some(fault.into()),
            },
            _ => Self::refused(node, fault.into()),
        }
    }

    /// The same with no answer.
    pub(crate) fn unanswered(self) -> Self
        ensures { reply_of result ≡ reply_with None self.fault }
    {
        Served {
            answer: None,
            fault: self.fault,
        }
    }
}
