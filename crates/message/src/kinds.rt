// The nine kinds of message.
ghost use Rattle.std.specs.Prelude.{◌≡◌, Some};
ghost use Rattle.message.specs.Kinds.{Encodes, Decodes, carries_value, goes_home, words_of, mnemonic_of};

use crate::Refusal;
use std::fmt;

/// A kind of message. The first five go to the home, the others come from it.
#[derive(Clone, Copy, PartialEq, Eq, Debug)]
pub enum Kind {
    ReadRequest,
    WriteRequest,
    Replacement,
    Update,
    Acknowledgement,
    ReadData,
    WriteData,
    Invalidate,
    Busy,
}

impl TryFrom<u8> for Kind {
    type Error = Refusal;

    ghost try_from_gives = { Decodes };

    /// The kind with an opcode, which `u8::from` turns back into it.
    fn try_from(opcode: u8) -> Result<Kind, Refusal> {
        match opcode {
            1 => Ok(Kind::ReadRequest),
            2 => Ok(Kind::WriteRequest),
            3 => Ok(Kind::Replacement),
            4 => Ok(Kind::Update),
            5 => Ok(Kind::Acknowledgement),
            6 => Ok(Kind::ReadData),
            7 => Ok(Kind::WriteData),
            8 => Ok(Kind::Invalidate),
            9 => Ok(Kind::Busy),
            _ => Err(Refusal::UnknownOpcode),
        }
    }
}

impl From<Kind> for u8 {
    ghost from_gives = { Encodes };

    /// The opcode of a kind, which `Kind::try_from` turns back into it.
    fn from(kind: Kind) -> u8 {
        match kind {
            Kind::ReadRequest => 1,
            Kind::WriteRequest => 2,
            Kind::Replacement => 3,
            Kind::Update => 4,
            Kind::Acknowledgement => 5,
            Kind::ReadData => 6,
            Kind::WriteData => 7,
            Kind::Invalidate => 8,
            Kind::Busy => 9,
        }
    }
}

impl fmt::Display for Kind {
    ghost output = { λ kind. Some (mnemonic_of kind) };

    /// Writes its short name.
    fn fmt<W: fmt::Write>(&self, f: &mut fmt::Formatter<W>) -> fmt::Result {
        f.write_str(self.mnemonic())
    }
}

impl Kind {
    /// Whether it carries a value.
    pub fn carries_value(self) -> bool
        ensures { result ≡ carries_value self }
    {
        matches!(
            self,
            Kind::Replacement | Kind::Update | Kind::ReadData | Kind::WriteData
        )
    }

    /// Whether it goes from a terminal to the home, rather than from the home to a terminal.
    pub fn goes_home(self) -> bool
        ensures { result ≡ goes_home self }
    {
        matches!(
            self,
            Kind::ReadRequest
                | Kind::WriteRequest
                | Kind::Replacement
                | Kind::Update
                | Kind::Acknowledgement
        )
    }

    /// How many words its packets have, the header counted.
    pub fn words(self) -> usize
        ensures { result ≡ words_of self }
    {
        if self.carries_value() { 4 } else { 2 }
    }

    /// Its short name, as listings show it.
    pub fn mnemonic(self) -> &'static str
        ensures { result.now ≡ mnemonic_of self }
    {
        match self {
            Kind::ReadRequest => "RREQ",
            Kind::WriteRequest => "WREQ",
            Kind::Replacement => "REPM",
            Kind::Update => "UPDATE",
            Kind::Acknowledgement => "ACKC",
            Kind::ReadData => "RDATA",
            Kind::WriteData => "WDATA",
            Kind::Invalidate => "INV",
            Kind::Busy => "BUSY",
        }
    }
}
