// The data messages that come to a rack.
ghost use Rattle.std.specs.Prelude.{◌≡◌, ◌<◌, ◌≤◌, length, IfErr};
ghost use Rattle.chain.specs.Faults.{chain_place};
ghost use Rattle.rack.specs.Commands.{addressed_to, command_for};

use crate::node::Node;
use chain::access::Command;
use chain::fault::ChainFault;
use line::fault::LineFault;

/// The node that every rack answers to.
const ANY_NODE: u8 = 0x80;

/// A data message: the node that it names, and its data bytes.
#[derive(Clone, Copy)]
pub(crate) struct DataMessage<'a> {
    pub node: u8,
    pub bytes: &'a [u8],
    pub ghost short: { length bytes.now ≤ 64 },
}

impl DataMessage<'_> {
    // Whether the message is for the rack at this node.
    fn check_node(self, own: Node) -> Result<(), LineFault>
        ensures { result ≡ addressed_to own.number self.entry.node }
    {
        if self.node == own.number() || self.node == ANY_NODE {
            Ok(())
        } else {
            Err(LineFault::OtherNode)
        }
    }

    /// The command of the message, if it is for the rack at this node.
    pub(crate) fn command(self, own: Node) -> Result<Command, ChainFault>
        ensures command { result ≡ command_for own.number self.entry.node self.entry.bytes.now }
        ensures index { IfErr result (λ f. chain_place f < 256) }
    {
        self.check_node(own)?;
        let [command, ..] = self.bytes else {
            return Err(ChainFault::MissingByte { index: 0 });
        };
        Command::try_from(*command)
    }
}
