//! Why a message is refused: the fault of each layer carries that of the layer below whole.
ghost use Rattle.std.specs.Prelude.{◌≡◌};
ghost use Rattle.chain.specs.declared.fault.ChainFault.TheVariants.{Line};
ghost use Rattle.chain.specs.declared.fault.RackFault.TheVariants.{Chain};
ghost use Rattle.chain.specs.Faults.{chain_code, chain_place, rack_code, rack_layer, rack_place};

use line::fault::LineFault;

/// The layer that a fault comes from.
#[derive(Clone, Copy, PartialEq, Eq, Debug)]
pub enum Layer {
    Line,
    Chain,
    Table,
}

/// Why the data of a message is not a chain, or its answer would be too long: a status, at the index of a data byte.
#[derive(Clone, Copy, PartialEq, Eq, Debug)]
pub enum ChainFault {
    /// What the line found.
    Line(LineFault),
    /// 02: the command is not 01, 02 or 04. It stands at index 0.
    UnknownCommand,
    /// 22: the data ends where a byte is needed. The index is the data length.
    MissingByte { index: usize },
    /// 22: a process or a parameter that a read asks for has its top bit set.
    TopBit { index: usize },
    /// 22: a byte stands behind the end of the chain.
    ExtraByte { index: usize },
    /// 1C: with this item, the answer would pass 64 data bytes. The index is that of the item's index byte.
    AnswerTooLong { index: usize },
}

/// Why a message is refused: a status, at the index of a data byte, or what a lower layer found.
#[derive(Clone, Copy, PartialEq, Eq, Debug)]
pub enum RackFault {
    /// What the chain found.
    Chain(ChainFault),
    /// 03: no row has the process.
    NoProcess { index: usize },
    /// 04: no row of the process has the parameter.
    NoParameter { index: usize },
    /// 05: the type bits are not the row's, or those of an index byte are not the parameter byte's.
    WrongType { index: usize },
    /// 0D: the row is not writable.
    NotWritable { index: usize },
    /// 0D: the row is secured, and row 0 was not 64 before the message.
    Secured { index: usize },
    /// 11: the row is not readable.
    NotReadable { index: usize },
    /// 06: a value to write is out of range, not a number, or of a wrong text length. The index is that of its first byte.
    BadValue { index: usize },
    /// 06: the length that a read gives is not the row's.
    BadLength { index: usize },
    /// 06: a feed's draw would pass its limit. The index is that of the message's first parameter byte on that feed.
    OverLimit { index: usize },
}

// Both conversions are written out: a derived one has no contract.
impl From<LineFault> for ChainFault {
    ghost from_gives = { λ f r. r ≡ Line f };

    fn from(fault: LineFault) -> ChainFault {
        ChainFault::Line(fault)
    }
}

impl From<ChainFault> for RackFault {
    ghost from_gives = { λ f r. r ≡ Chain f };

    fn from(fault: ChainFault) -> RackFault {
        RackFault::Chain(fault)
    }
}

impl ChainFault {
    /// The code of the fault: a status, or what the line gives its own.
    pub fn code(self) -> u8
        ensures { result ≡ chain_code self }
    {
        // Matched, not cast: a case that holds an index has no number of its own.
        match self {
            ChainFault::Line(fault) => fault.code(),
            ChainFault::UnknownCommand => 0x02,
            ChainFault::MissingByte { .. }
            | ChainFault::TopBit { .. }
            | ChainFault::ExtraByte { .. } => 0x22,
            ChainFault::AnswerTooLong { .. } => 0x1c,
        }
    }

    /// The place of the fault: the index of a data byte, or the line's place.
    pub fn place(self) -> usize
        ensures { result ≡ chain_place self }
    {
        match self {
            ChainFault::Line(fault) => fault.place(),
            ChainFault::UnknownCommand => 0,
            ChainFault::MissingByte { index }
            | ChainFault::TopBit { index }
            | ChainFault::ExtraByte { index }
            | ChainFault::AnswerTooLong { index } => index,
        }
    }
}

impl RackFault {
    /// The layer that the fault comes from.
    pub fn layer(self) -> Layer
        ensures { result ≡ rack_layer self }
    {
        match self {
            RackFault::Chain(ChainFault::Line(_)) => Layer::Line,
            RackFault::Chain(_) => Layer::Chain,
            _ => Layer::Table,
        }
    }

    /// The code of the fault: a status, or what the layer below gives its own.
    pub fn code(self) -> u8
        ensures { result ≡ rack_code self }
    {
        // Matched, not cast: a case that holds an index has no number of its own.
        match self {
            RackFault::Chain(fault) => fault.code(),
            RackFault::NoProcess { .. } => 0x03,
            RackFault::NoParameter { .. } => 0x04,
            RackFault::WrongType { .. } => 0x05,
            RackFault::NotWritable { .. } | RackFault::Secured { .. } => 0x0d,
            RackFault::NotReadable { .. } => 0x11,
            RackFault::BadValue { .. }
            | RackFault::BadLength { .. }
            | RackFault::OverLimit { .. } => 0x06,
        }
    }

    /// The place of the fault: the index of a data byte, or the place that the layer below gives its own.
    pub fn place(self) -> usize
        ensures { result ≡ rack_place self }
    {
        match self {
            RackFault::Chain(fault) => fault.place(),
            RackFault::NoProcess { index }
            | RackFault::NoParameter { index }
            | RackFault::WrongType { index }
            | RackFault::NotWritable { index }
            | RackFault::Secured { index }
            | RackFault::NotReadable { index }
            | RackFault::BadValue { index }
            | RackFault::BadLength { index }
            | RackFault::OverLimit { index } => index,
        }
    }
}
