// One line after another.
ghost use Rattle.std.specs.Prelude.{◌≡◌, ◌∷◌};
ghost use Rattle.std.specs.Iterator.{YieldsFirst, item_count};
ghost use Rattle.listing.specs.declared.walking.Stage.TheVariants.{Counting, Walking};
ghost use Rattle.listing.specs.Lines.{listing};
ghost use Rattle.listing.specs.Listings.{lines_left};

use super::{Counts, Listing, Stage};
use crate::Line;
use message::Kind;
use packet::{Found, Reader};

impl<'a> Listing<'a> {
    /// The listing of words, before its first line.
    pub fn new(words: &'a [u32]) -> Listing<'a>
        ensures { lines_left result ≡ listing words.now }
    {
        Listing {
            reader: Reader::new(words),
            packets: 0,
            counts: Counts([0; 9]),
            stage: Stage::Walking,
        }
    }

    // The line of the packet at the place reached; at the end of the words, the totals; or the fault.
    fn walk_on(&mut self) -> Line
        requires stage { self.old.stage ≡ Walking }
        ensures { lines_left self.old ≡ result ∷ lines_left self.new }
    {
        let place = self.reader.place();
        if self.reader.is_at_end() {
            self.stage = Stage::Counting(Kind::ReadRequest);
            return Line::Totals {
                packets: self.packets,
                words: place,
            };
        }
        match self.reader.next() {
            Ok(Found { kind, packet, .. }) => {
                self.packets += 1;
                self.counts.count(kind);
                Line::Packet {
                    place,
                    source: packet.source,
                    kind,
                    record: packet.message.record,
                    value: packet.message.value,
                }
            }
            Err(fault) => {
                self.stage = Stage::Ended;
                Line::Fault(fault)
            }
        }
    }

    // How many packets of a kind there were.
    fn count_on(&mut self, kind: Kind) -> Line
        requires stage { self.old.stage ≡ Counting kind }
        ensures { lines_left self.old ≡ result ∷ lines_left self.new }
    {
        self.stage = Kind::try_from(u8::from(kind) + 1).map_or(Stage::Ended, Stage::Counting);
        Line::Count {
            kind,
            packets: self.counts.of(kind),
        }
    }
}

impl Iterator for Listing<'_> {
    type Item = Line;

    ghost next_gives = { YieldsFirst lines_left };

    ghost remaining = { item_count lines_left };

    /// The next line, or none after the last.
    fn next(&mut self) -> Option<Line> {
        match self.stage {
            Stage::Walking => Some(self.walk_on()),
            Stage::Counting(kind) => Some(self.count_on(kind)),
            Stage::Ended => None,
        }
    }
}
