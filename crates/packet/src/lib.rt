// Messages as packets of 32-bit words: the writer and the reader.

#![tactic(auto)]

use message::{Kind, Message, Refusal};

mod examples;
mod fields;
mod reader;
mod writer;

pub use examples::worked_examples;
pub use reader::{Reader, read};

/// A message and the source that its packet names: the terminal for what goes to the home, 64 for what comes from it.
#[derive(Clone, Copy, PartialEq, Eq, Debug)]
pub struct Packet {
    pub source: u16,
    pub message: Message,
}

/// What is wrong with words, and the index of the word where it shows.
#[derive(Clone, Copy, PartialEq, Eq, Debug)]
pub struct Fault {
    pub refusal: Refusal,
    pub place: usize,
}

/// A packet as the reader hands it out: its kind, what it says, and the part of the words that it is.
#[derive(Clone, Copy)]
pub struct Found<'a> {
    pub kind: Kind,
    pub packet: Packet,
    pub words: &'a [u32],
}
