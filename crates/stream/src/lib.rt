// Streams of packets: lists of packets written, and words read and written again.

#![tactic(auto)]

ghost use Rattle.std.specs.Prelude.{◌≡◌, ◌-◌, ◌≤◌, ◌++◌, length, take, drop, OnOk};
ghost use Rattle.packet.specs.Streams.{ended, walk};
ghost use Rattle.stream.specs.Rewriting.{rewrite_answer, rewritten};
ghost use Rattle.stream.specs.Sending.{taken, words_written, write_all_answer, written_all};
ghost use Rattle.packet.specs.Writing.{laid_over, write_answer, written};

use message::Refusal;
use packet::{Fault, Packet, Reader};

/// Writes a packet at a place of a buffer.
fn write_at(packet: Packet, out: &mut [u32], at: usize) -> Result<(), Refusal>
    requires { at ≤ length out.old }
    ensures answer { result ≡ write_answer packet (length out.old - at) }
    ensures words { out.new ≡ take at out.old ++ written packet (drop at out.old) }
{
    packet.write(&mut out[at..])
}

/// Writes packets one after another to the front of a buffer, up to the first that is refused. It answers how many words it
/// wrote, or why it stopped and at which place; a walk over the words before that place finds the packets that it took.
pub fn write_all(packets: &[Packet], out: &mut [u32]) -> Result<usize, Fault>
    ensures answer { result ≡ write_all_answer packets.now (length out.old) }
    ensures words { out.new ≡ written_all packets.now out.old }
    ensures all { OnOk result (taken packets.now (length out.old) ≡ packets.now) }
    ensures back { walk (take (words_written result) out.new) ≡ ended (taken packets.now (length out.old)) }
{
    let mut at = 0;
    for packet in packets {
        write_at(*packet, out, at).map_err(|refusal| Fault { refusal, place: at })?;
        at += packet.size();
    }
    Ok(at)
}

/// Walks words and writes the packets that it finds again, one after another, to the front of a buffer that is at least as
/// long. It answers how many there were, or the fault that stopped it; words that are accepted to the end are then in the
/// buffer word for word.
pub fn rewrite(words: &[u32], out: &mut [u32]) -> Result<usize, Fault>
    ensures answer { result ≡ rewrite_answer words.now (length out.old) }
    ensures words { out.new ≡ rewritten words.now out.old }
    ensures same { OnOk result (out.new ≡ laid_over words.now out.old) }
{
    if out.len() < words.len() {
        return Err(Fault {
            refusal: Refusal::Full,
            place: out.len(),
        });
    }
    let mut reader = Reader::new(words);
    let mut count = 0;
    while !reader.is_at_end() {
        let at = reader.place();
        let found = reader.next()?;
        // What was read can be sent, and the buffer has room for it, so this is not refused.
        let _ = write_at(found.packet, out, at);
        count += 1;
    }
    Ok(count)
}
