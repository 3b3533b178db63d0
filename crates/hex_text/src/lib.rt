// Reads the text of a capture, hexadecimal words between white space, into 32-bit words.

#![tactic(auto)]

ghost use Rattle.std.specs.Prelude.{◌≡◌};
ghost use Rattle.hex_text.specs.Reading.{answer_to, buffer_after};
ghost use Rattle.hex_text.specs.Writing.{TextReadsBack};

mod faults;
mod words;

pub use faults::TextFault;
use std::mem;
use words::{Word, Written, is_white};

/// How many bytes a text may have.
pub const LONGEST: usize = 1_048_576;

/// Reads the words of a text into the front of a buffer, and answers how many there are.
///
/// A word is one to eight hexadecimal digits, in either case. Spaces, tabs, line feeds and carriage returns stand
/// between words, and anywhere else. At a byte that no word can take, the buffer holds the words that ended before it.
/// A text of more than 1,048,576 bytes is refused, and so is a buffer that is shorter than the text. What of the buffer lies after the words is never changed.
/// The text that writes each of any words as eight lower-case digits and a line feed is read as exactly these words.
#[tactic(auto, using(crate::proofs::Back::text_back), unfolding(crate::specs::Reading::reading))]
pub fn read_words(text: &[u8], out: &mut [u32]) -> Result<usize, TextFault>
    ensures answer { result ≡ answer_to text.now out.old }
    ensures buffer { out.new ≡ buffer_after text.now out.old }
    ensures law { TextReadsBack }
{
    if text.len() > LONGEST {
        return Err(TextFault::Long);
    }
    if out.len() < text.len() {
        return Err(TextFault::Short);
    }
    let mut written = Written {
        buffer: out,
        count: 0,
    };
    let mut word = Word::default();
    let mut line = 1;
    let mut line_start = 0;
    for (at, &byte) in text.iter().enumerate() {
        if is_white(byte) {
            written.end(mem::take(&mut word));
        } else {
            let column = at - line_start + 1;
            word = word
                .lengthen(byte)
                .ok_or(TextFault::Stray { line, column })?;
        }
        if byte == b'\n' {
            line += 1;
            line_start = at + 1;
        }
    }
    written.end(word);
    Ok(written.count)
}
