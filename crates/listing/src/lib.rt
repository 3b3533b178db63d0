// The listing of a capture: a line for each packet, and then the fault or what the words hold in all.

#![tactic(auto)]

use message::Kind;
use packet::Fault;

mod rewriting;
mod shown;
mod walking;

pub use rewriting::{Rewritten, compare_rewritten};
pub use walking::Listing;

/// One line of a listing.
#[derive(Clone, Copy, PartialEq, Eq, Debug)]
pub enum Line {
    /// A packet: the index of its first word, and what it says.
    Packet {
        place: usize,
        source: u16,
        kind: Kind,
        record: u32,
        value: u64,
    },
    /// The fault that ends the listing.
    Fault(Fault),
    /// How many packets and words there were.
    Totals {
        packets: usize,
        words: usize,
    },
    /// How many packets of a kind there were.
    Count {
        kind: Kind,
        packets: usize,
    },
}
