// The header of a packet and the halves of a value, by shifts and masks.
ghost use Rattle.std.specs.Prelude.{◌≡◌, ◌/◌, ◌%◌, ◌^◌};
ghost use Rattle.packet.specs.Headers.{ReadsHeader};
ghost use Rattle.packet.specs.Layout.{header, source_fits, value_in};

use message::{Kind, Refusal};

/// What a header says: the kind of its packet, which has the opcode and the length, and the source.
#[derive(Clone, Copy)]
pub(crate) struct Header {
    pub kind: Kind,
    pub source: u16,
}

impl From<Header> for u32 {
    ghost from_gives = { λ fields word. word ≡ header fields.kind fields.source };

    fn from(Header { kind, source }: Header) -> u32 {
        (u32::from(source) << 8 | kind.words() as u32) << 8 | u32::from(u8::from(kind))
    }
}

impl TryFrom<u32> for Header {
    type Error = Refusal;

    ghost try_from_gives = { ReadsHeader };

    /// The header that a word is, of which `u32::from` makes that word again.
    fn try_from(word: u32) -> Result<Header, Refusal> {
        let kind = Kind::try_from((word & 0xff) as u8)?;
        if (word >> 8 & 0xff) as usize != kind.words() {
            return Err(Refusal::WrongLength);
        }
        Ok(Header {
            kind,
            source: (word >> 16) as u16,
        })
    }
}

impl Header {
    /// Whether packets of its kind may name its source.
    pub(crate) fn source_fits(self) -> bool
        ensures { result ≡ source_fits self.kind self.source }
    {
        if self.kind.goes_home() {
            self.source <= 63
        } else {
            self.source == 64
        }
    }
}

/// The two halves of a value.
#[derive(Clone, Copy)]
pub(crate) struct Halves {
    pub low: u32,
    pub high: u32,
}

impl From<u64> for Halves {
    ghost from_gives = { λ value halves. halves ≡ record { low = value % 2 ^ 32; high = value / 2 ^ 32 } };

    fn from(value: u64) -> Halves {
        Halves {
            low: (value & 0xffff_ffff) as u32,
            high: (value >> 32) as u32,
        }
    }
}

impl From<Halves> for u64 {
    ghost from_gives = { λ halves value. value ≡ value_in halves.low halves.high };

    fn from(Halves { low, high }: Halves) -> u64 {
        u64::from(high) << 32 | u64::from(low)
    }
}
