// Serving a data message.
ghost use Rattle.std.specs.Prelude.{◌≡◌};
ghost use Rattle.promises.specs.Requests.{message_request};
ghost use Rattle.rack.specs.Racks.{on_line, read_request, setup_of, write_request, Serves};
ghost use Rattle.rack.specs.Replies.{reply_of};

use crate::message::DataMessage;
use crate::rack::Rack;
use crate::replies::{Answer, DONE, Served};
use chain::access::Command;
use readout::read;
use store::Store;
use writing::write;

impl<S: Store> Rack<S> {
    // Serves a write: status 00 at the data length, or what refuses it.
    fn serve_write(&mut self, message: DataMessage<'_>) -> Served<Answer>
        ensures { Serves S.Store.held self.old (write_request self.old.table message.entry) (reply_of result) self.new }
    {
        let size = message.bytes.len() as u8;
        match write(&self.table, &mut self.store, message.bytes) {
            Ok(()) => Served::answered(Answer::status(message.node, DONE, size)),
            Err(fault) => Served::refused(message.node, fault),
        }
    }

    // Serves a read.
    fn serve_read(&self, message: DataMessage<'_>) -> Served<Answer>
        ensures { Serves S.Store.held self.now (read_request self.now.table message.entry) (reply_of result) self.now }
    {
        match read(&self.table, &self.store, message.bytes) {
            Ok(values) => Served::answered(Answer::Read {
                node: message.node,
                values,
            }),
            Err(fault) => Served::refused(message.node, fault),
        }
    }

    /// Serves a data message.
    pub(crate) fn serve(&mut self, message: DataMessage<'_>) -> Served<Answer>
        ensures { Serves S.Store.held self.old (message_request (setup_of self.old) (on_line message.entry)) (reply_of result) self.new }
    {
        // The command is data of the message, so that no step can be handed in for it.
        match message.command(self.node) {
            Ok(Command::Write) => self.serve_write(message),
            Ok(Command::WriteUnanswered) => self.serve_write(message).unanswered(),
            Ok(Command::Read) => self.serve_read(message),
            Err(fault) => Served::no_command(message.node, fault),
        }
    }
}
