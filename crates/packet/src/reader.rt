// The reader: the packet at a place among words, taken apart by its kind.
ghost use Rattle.std.specs.Prelude.{◌≡◌, ◌+◌, ◌^◌, ◌<◌, length, drop, IfOk, nat_le, MatchOption, ◌≤◌};
ghost use Rattle.message.specs.Kinds.{words_of};
ghost use Rattle.packet.specs.Reading.{Handed, answer, front_packet, packet_at, place_after, said};

use crate::fields::{Halves, Header};
use crate::{Fault, Found, Packet};
use message::{Kind, Message, Refusal};

/// The message in a packet of a kind at the front of words, where all words of the packet are there.
fn message_in(kind: Kind, front: &[u32]) -> Option<Message>
    ensures { MatchOption result (length front.now < words_of kind)
        (λ message. (words_of kind ≤ length front.now) × (message ≡ (said kind front.now).message)) }
{
    match *front {
        [_, record, low, high, ..] if kind.carries_value() => {
            Some(Message::new(kind, record, u64::from(Halves { low, high })))
        }
        [_, record, ..] if !kind.carries_value() => Some(Message::new(kind, record, 0)),
        _ => None,
    }
}

/// The packet at the front of words that begin at a place, or the first fault there.
fn read_front(front: &[u32], at: usize) -> Result<Found<'_>, Fault>
    requires { at + length front.now < 2 ^ 64 }
    ensures value { answer result ≡ front_packet at (at + length front.now) front.now }
    ensures handed { IfOk result (λ f. Handed front.now f) }
{
    let missing = Fault {
        refusal: Refusal::MissingWords,
        place: at + front.len(),
    };
    let head = *front.first().ok_or(missing)?;
    let header = Header::try_from(head).map_err(|refusal| Fault { refusal, place: at })?;
    let Header { kind, source } = header;
    let message = message_in(kind, front).ok_or(missing)?;
    if !header.source_fits() {
        return Err(Fault {
            refusal: Refusal::WrongSource,
            place: at,
        });
    }
    if message.record > 63 {
        return Err(Fault {
            refusal: Refusal::UnknownRecord,
            place: at + 1,
        });
    }
    Ok(Found {
        kind,
        packet: Packet { source, message },
        words: &front[..kind.words()],
    })
}

/// The packet that begins at a place among words, or the first fault there.
pub fn read(words: &[u32], at: usize) -> Result<Found<'_>, Fault>
    ensures value { answer result ≡ packet_at words.now at }
    ensures handed { IfOk result (λ f. Handed (drop at words.now) f) }
{
    let front = words.get(at..).ok_or(Fault {
        refusal: Refusal::MissingWords,
        place: words.len(),
    })?;
    read_front(front, at)
}

/// Walks words from the first on, and hands out one packet after another.
#[derive(Clone, Copy)]
pub struct Reader<'a> {
    words: &'a [u32],
    at: usize,
    ghost within: { at ≤ length words.now },
    ghost room: { length words.now < 2 ^ 64 },
}

impl<'a> Reader<'a> {
    /// A reader before the first word.
    pub fn new(words: &'a [u32]) -> Reader<'a>
        ensures words { result.words.now ≡ words.now }
        ensures at { result.at ≡ 0 }
    {
        Reader { words, at: 0 }
    }

    /// The index of the word that it reads next.
    pub fn place(&self) -> usize
        ensures { result ≡ self.now.at }
    {
        let Reader { at, .. } = *self;
        at
    }

    /// Whether it has come to the end of the words.
    pub fn is_at_end(&self) -> bool
        ensures { result ≡ nat_le (length self.now.words.now) self.now.at }
    {
        self.at >= self.words.len()
    }

    /// The packet that begins here, and past it; a fault leaves the reader where it is.
    pub fn next(&mut self) -> Result<Found<'a>, Fault>
        ensures value { answer result ≡ packet_at self.old.words.now self.old.at }
        ensures handed { IfOk result (λ f. Handed (drop self.old.at self.old.words.now) f) }
        ensures words { self.new.words.now ≡ self.old.words.now }
        ensures at { self.new.at ≡ place_after self.old.at (answer result) }
    {
        let found = read(self.words, self.at)?;
        self.at += found.words.len();
        Ok(found)
    }
}
