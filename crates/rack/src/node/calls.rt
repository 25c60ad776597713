// Making a node.
ghost use Rattle.std.specs.Prelude.{◌≡◌};
ghost use Rattle.rack.specs.Nodes.{node_number, node_of, number_in};

use crate::node::Node;

/// Why a number is not a node.
#[derive(Clone, Copy, PartialEq, Eq, Debug)]
pub enum NodeRefusal {
    /// It is not 3 to 120.
    OutOfRange = 5,
}

impl NodeRefusal {
    /// The number of the refusal: 5.
    pub fn number(self) -> u8
        ensures { result ≡ node_number self }
    {
        // Each casts its own: a cast is no operation of a trait.
        self as u8
    }
}

impl Node {
    /// The node with this number. Refused by 5 if it is not 3 to 120.
    pub fn new(number: u8) -> Result<Node, NodeRefusal>
        ensures { number_in result ≡ node_of number }
    {
        if (3..=120).contains(&number) {
            Ok(Node { number })
        } else {
            Err(NodeRefusal::OutOfRange)
        }
    }

    /// The node's number.
    pub fn number(self) -> u8
        ensures { result ≡ self.number }
    {
        self.number
    }
}
