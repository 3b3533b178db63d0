// The writer: one packet to the front of a buffer.
ghost use Rattle.std.specs.Prelude.{◌≡◌, length, Ok};
ghost use Rattle.packet.specs.Headers.{header_of};
ghost use Rattle.packet.specs.Layout.{packet_words};
ghost use Rattle.packet.specs.Reading.{packet_at};
ghost use Rattle.packet.specs.Writing.{sendable, write_answer, written};

use crate::Packet;
use crate::fields::{Halves, Header};
use message::{Kind, Refusal};

impl Packet {
    /// What its header says, where its opcode is that of a kind.
    fn header(self) -> Option<Header>
        ensures { result ≡ header_of self }
    {
        self.message.kind().map(|kind| Header {
            kind,
            source: self.source,
        })
    }

    /// Whether the writer takes it where there is room: its message is well formed, and its source goes with its kind.
    pub fn is_sendable(self) -> bool
        ensures { result ≡ sendable self }
    {
        self.message.is_well_formed() && self.header().is_some_and(Header::source_fits)
    }

    /// How many words it has: none where its opcode is that of no kind.
    pub fn size(self) -> usize
        ensures { result ≡ length (packet_words self) }
    {
        self.message.kind().map_or(0, Kind::words)
    }

    /// Writes it to the front of a buffer, where it is then read back; a refusal leaves the buffer as it was.
    pub fn write(self, out: &mut [u32]) -> Result<(), Refusal>
        ensures answer { result ≡ write_answer self (length out.old) }
        ensures words { out.new ≡ written self out.old }
        ensures back { result ≡ Ok tt → packet_at out.new 0 ≡ Ok self }
    {
        let header = self.header().ok_or(Refusal::Malformed)?;
        if !self.message.is_well_formed() {
            return Err(Refusal::Malformed);
        }
        if !header.source_fits() {
            return Err(Refusal::WrongSource);
        }
        if out.len() < header.kind.words() {
            return Err(Refusal::Full);
        }
        out[0] = u32::from(header);
        out[1] = self.message.record;
        if header.kind.carries_value() {
            let Halves { low, high } = Halves::from(self.message.value);
            out[2] = low;
            out[3] = high;
        }
        Ok(())
    }
}
