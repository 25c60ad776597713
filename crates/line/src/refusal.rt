//! Why reading or writing a frame is refused, and the number of each refusal.
ghost use Rattle.std.specs.Prelude.{◌≡◌};
ghost use Rattle.line.specs.declared.refusal.ReadRefusal.TheVariants.{Unreadable};
ghost use Rattle.line.specs.Refusals.{flaw_number, read_number, write_number};

/// What is wrong with bytes that cannot be read as a frame, by number.
#[derive(Clone, Copy, PartialEq, Eq, Debug)]
pub enum Flaw {
    /// The bytes are not a frame of this framing.
    NotAFrame = 8,
}

/// Why a frame was not read.
#[derive(Clone, Copy, PartialEq, Eq, Debug)]
pub enum ReadRefusal {
    /// The buffer lent for the data has fewer than 64 bytes.
    ShortBuffer,
    /// The bytes cannot be read.
    Unreadable(Flaw),
}

/// Why a frame was not written, by number.
#[derive(Clone, Copy, PartialEq, Eq, Debug)]
pub enum WriteRefusal {
    /// The buffer lent for the frame has fewer than 138 bytes.
    ShortBuffer = 1,
    /// A data message has no data byte, or more than 64.
    DataLength = 9,
}

impl Flaw {
    /// The number of a flaw: 8 for bytes that are no frame.
    pub fn number(self) -> u8
        ensures { result ≡ flaw_number self }
    {
        // Each casts its own: a cast is no operation of a trait.
        self as u8
    }
}

impl ReadRefusal {
    /// The number of the refusal: 1 for a short buffer, else the flaw's.
    pub fn number(self) -> u8
        ensures { result ≡ read_number self }
    {
        // Matched, not cast: a case that holds a flaw has no number of its own.
        match self {
            ReadRefusal::ShortBuffer => 1,
            ReadRefusal::Unreadable(flaw) => flaw.number(),
        }
    }
}

impl WriteRefusal {
    /// The number of the refusal: 1 for a short buffer, 9 for a data message that cannot be framed.
    pub fn number(self) -> u8
        ensures { result ≡ write_number self }
    {
        self as u8
    }
}

/// A frame with a flaw was not read.
// Written out: a derived conversion has no contract.
impl From<Flaw> for ReadRefusal {
    ghost from_gives = { λ f r. r ≡ Unreadable f };

    fn from(flaw: Flaw) -> Self {
        Self::Unreadable(flaw)
    }
}

#[cfg(test)]
mod tests {
    use super::*;

    #[test]
    fn numbers(rt: HostRuntime) {
        assert_eq!(rt; Flaw::NotAFrame.number(), 8);
        assert_eq!(rt; ReadRefusal::ShortBuffer.number(), 1);
        assert_eq!(rt; ReadRefusal::from(Flaw::NotAFrame).number(), 8);
        assert_eq!(rt; WriteRefusal::ShortBuffer.number(), 1);
        assert_eq!(rt; WriteRefusal::DataLength.number(), 9);
    }

    #[test]
    fn a_flaw_is_unreadable(rt: HostRuntime) {
        assert_eq!(rt;
            ReadRefusal::from(Flaw::NotAFrame),
            ReadRefusal::Unreadable(Flaw::NotAFrame)
        );
    }
}
