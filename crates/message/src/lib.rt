// What travels between the terminals and the home, and why calls are refused.

#![tactic(auto)]

ghost use Rattle.std.specs.Prelude.{◌≡◌};
ghost use Rattle.message.specs.Kinds.{kind_of};
ghost use Rattle.message.specs.Messages.{message_of, well_formed};

mod kinds;
mod refusals;

pub use kinds::Kind;
pub use refusals::{Refusal, code_of};

/// A message. Its opcode is a plain number, and its record any 32-bit number, so that a malformed message can be
/// written down and refused.
#[derive(Clone, Copy, PartialEq, Eq, Debug)]
pub struct Message {
    pub opcode: u8,
    pub record: u32,
    pub value: u64,
}

impl Message {
    /// The message of a kind about a record, with a value: 0 where the kind carries none.
    pub fn new(kind: Kind, record: u32, value: u64) -> Message
        ensures { result ≡ message_of kind «record» value }
    {
        Message {
            opcode: u8::from(kind),
            record,
            value,
        }
    }

    /// Its kind, or none where the opcode is the number of no kind.
    pub fn kind(self) -> Option<Kind>
        ensures { result ≡ kind_of self.opcode }
    {
        Kind::try_from(self.opcode).ok()
    }

    /// Whether a network takes it: an opcode of a kind, a record at most 63, and no value where its kind carries none.
    pub fn is_well_formed(self) -> bool
        ensures { result ≡ well_formed self }
    {
        self.record <= 63
            && self
                .kind()
                .is_some_and(|kind| kind.carries_value() || self.value == 0)
    }
}
