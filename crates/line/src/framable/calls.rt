// Telling which messages can be framed.
ghost use Rattle.std.specs.Prelude.{◌≡◌};
ghost use Rattle.line.specs.Calls.{said};
ghost use Rattle.line.specs.Framable.{framable_in, framable_of};
ghost use Rattle.line.specs.Messages.{Framable as Fits};

use crate::framable::Framable;
use crate::message::{MAX_DATA, Message};
use crate::refusal::WriteRefusal;

impl<'a> Framable<'a> {
    /// The message, if it can be framed. Refused by 9 for a data message of 0 or over 64 bytes.
    pub fn new(message: Message<'a>) -> Result<Self, WriteRefusal>
        ensures { framable_in result ≡ framable_of (said message.entry) }
    {
        match message {
            Message::Data { bytes, .. } if !(1..=MAX_DATA).contains(&bytes.len()) => {
                Err(WriteRefusal::DataLength)
            }
            _ => Ok(Framable { message }),
        }
    }

    /// The message itself.
    pub fn message(self) -> Message<'a>
        ensures same { said result ≡ said self.entry.message }
        ensures fits { Fits (said result) }
    {
        self.message
    }
}

#[cfg(test)]
mod tests {
    use super::*;

    #[test]
    fn one_to_64_data_bytes(rt: HostRuntime) {
        let bytes = [0x04; 65];
        for (len, refused) in [(0usize, Some(9)), (1, None), (64, None), (65, Some(9))] {
            assert!(rt; len <= 65);
            let message = Message::Data {
                node: 3,
                bytes: &bytes[..len],
            };
            let framed = Framable::new(message)
                .map(|framable| framable.message())
                .map_err(|refusal| refusal.number());
            match refused {
                Some(number) => assert_eq!(rt; framed, Err(number)),
                None => assert_eq!(rt; framed, Ok(message)),
            }
        }
        let error = Message::Error { code: 5 };
        assert!(rt; Framable::new(error).is_ok_and(|framable| framable.message() == error));
    }
}
