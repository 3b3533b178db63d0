// Why calls are refused, and the numbers by which programs tell what calls answered.
ghost use Rattle.std.specs.Prelude.{◌≡◌};
ghost use Rattle.message.specs.Refusals.{code_of, number};

/// Why a call is refused. What can be refused answers a `Result` with this error.
#[derive(Clone, Copy, PartialEq, Eq, Debug)]
pub enum Refusal {
    /// The terminal has no copy that would do, and waits already.
    Waiting,
    /// A lane or a buffer is full.
    Full,
    /// A lane is empty.
    Empty,
    /// There is no copy to release.
    NoCopy,
    /// The message is out of turn.
    OutOfTurn,
    /// There is no such terminal, or no such lane: lane t is that of terminal t.
    NoSuchTerminal,
    /// There is no such record.
    NoSuchRecord,
    /// Sizes or parts do not fit.
    Unfit,
    /// The message is malformed.
    Malformed,
    /// A record has as many holders as the limit allows.
    AtLimit,
    /// Words of a packet are missing.
    MissingWords,
    /// The opcode of a header is that of no kind.
    UnknownOpcode,
    /// The length in a header is not that of its kind.
    WrongLength,
    /// The source of a packet does not go with its kind.
    WrongSource,
    /// The record of a packet is above 63.
    UnknownRecord,
}

impl From<Refusal> for u8 {
    ghost from_gives = { λ refusal result. result ≡ number refusal };

    /// The number that stands for a refusal wherever answers are numbers.
    fn from(refusal: Refusal) -> u8 {
        match refusal {
            Refusal::Waiting => 2,
            Refusal::Full => 3,
            Refusal::Empty => 4,
            Refusal::NoCopy => 5,
            Refusal::OutOfTurn => 6,
            Refusal::NoSuchTerminal => 7,
            Refusal::NoSuchRecord => 8,
            Refusal::Unfit => 9,
            Refusal::Malformed => 10,
            Refusal::AtLimit => 11,
            Refusal::MissingWords => 12,
            Refusal::UnknownOpcode => 13,
            Refusal::WrongLength => 14,
            Refusal::WrongSource => 15,
            Refusal::UnknownRecord => 16,
        }
    }
}

/// The number that stands for an answer: 0 where the call was accepted, and else that of the refusal.
pub fn code_of<T>(answer: &Result<T, Refusal>) -> u8
    ensures { result ≡ code_of answer.now }
{
    match *answer {
        Ok(_) => 0,
        Err(refusal) => u8::from(refusal),
    }
}
