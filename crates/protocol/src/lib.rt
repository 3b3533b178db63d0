// The protocol's types. What they mean, every rule, every call and the law of coherence are definitions in specs/, which the
// contracts of the home, the terminals and the site are to cite.

#![tactic(auto)]

use message::Refusal;

/// What the home knows of a record.
#[derive(Clone, Copy, PartialEq, Eq, Debug)]
pub enum HomeState {
    /// Any number of terminals may hold copies that are only read.
    ReadOnly,
    /// One terminal holds the record and may write it.
    ReadWrite,
    /// The owner was told to give the record up, for a terminal that waits to read.
    ReadTransaction,
    /// The holders were told to give the record up, for a terminal that waits to write.
    WriteTransaction,
}

/// The home's entry of a record: its state, the value that the home has, and how many acknowledgements it awaits.
#[derive(Clone, Copy, PartialEq, Eq, Debug)]
pub struct Entry {
    pub state: HomeState,
    pub value: u64,
    pub awaited: u8,
}

/// What a place of a terminal holds.
#[derive(Clone, Copy, PartialEq, Eq, Debug)]
pub enum PlaceState {
    /// Nothing; such a place shows record 0 and value 0.
    Invalid,
    /// A copy that may be read.
    ReadOnly,
    /// A copy that may be read and written.
    ReadWrite,
}

/// A place of a terminal. The row of places is lent by the caller and may show anything, so the record is any 32-bit number.
#[derive(Clone, Copy, PartialEq, Eq, Debug)]
pub struct Place {
    pub state: PlaceState,
    pub record: u32,
    pub value: u64,
}

/// What a terminal waits for: nothing, or one read or one write of one record.
#[derive(Clone, Copy, PartialEq, Eq, Debug)]
pub enum Wait {
    Nothing,
    ToRead(u32),
    ToWrite(u32),
}

/// How large a site is to be: its terminals, its records, and the places of each terminal; each is from 1 to 64.
#[derive(Clone, Copy, PartialEq, Eq, Debug)]
pub struct Sizes {
    pub terminals: usize,
    pub records: usize,
    pub places: usize,
}

/// One of the five calls of a site that is open.
#[derive(Clone, Copy, PartialEq, Eq, Debug)]
pub enum Call {
    /// A terminal reads a record.
    Read {
        terminal: usize,
        record: usize,
    },
    /// A terminal writes a record.
    Write {
        terminal: usize,
        record: usize,
        value: u64,
    },
    /// A terminal gives up its copy of a record.
    Release {
        terminal: usize,
        record: usize,
    },
    /// The home takes the oldest message of a terminal's up lane.
    HomeStep {
        terminal: usize,
    },
    /// A terminal takes the oldest message of its down lane.
    TerminalStep {
        terminal: usize,
    },
}

/// What a call of a site answers beside its value.
#[derive(Clone, Copy, PartialEq, Eq, Debug)]
pub enum Code {
    /// Accepted.
    Accepted,
    /// A request was sent; the terminal waits for what it asked for.
    Requested,
    /// Refused, and why.
    Refused(Refusal),
}
