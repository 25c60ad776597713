//! What a message does with the rows that it names.
ghost use Rattle.std.specs.Prelude.{◌≡◌};
ghost use Rattle.chain.specs.Access.{command_of};

use crate::fault::ChainFault;

/// What the first data byte of a message asks for.
#[derive(Clone, Copy, PartialEq, Eq, Debug)]
pub enum Command {
    /// 01: write, and answer with a status.
    Write,
    /// 02: write, and answer nothing.
    WriteUnanswered,
    /// 04: read.
    Read,
}

/// How the items of a chain are taken.
#[derive(Clone, Copy)]
pub enum Access {
    /// As writes. `unlocked` says that row 0 was 64 before the message, so that secured rows may be written.
    Write { unlocked: bool },
    /// As reads.
    Read,
}

/// The command of a byte. Refused by status 02 for a byte other than 01, 02 and 04.
impl TryFrom<u8> for Command {
    type Error = ChainFault;

    ghost try_from_gives = { λ b r. r ≡ command_of b };

    fn try_from(byte: u8) -> Result<Command, ChainFault> {
        match byte {
            0x01 => Ok(Command::Write),
            0x02 => Ok(Command::WriteUnanswered),
            0x04 => Ok(Command::Read),
            _ => Err(ChainFault::UnknownCommand),
        }
    }
}
