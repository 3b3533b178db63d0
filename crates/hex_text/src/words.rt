// Words, digit by digit, and the buffer that they go into.
ghost use Rattle.std.specs.Prelude.{◌≡◌, ◌<◌, length, IfSome};
ghost use Rattle.hex_text.specs.Bytes.{white};
ghost use Rattle.hex_text.specs.Inner.{InRange, Ends};
ghost use Rattle.hex_text.specs.Reading.{lengthened};

// The word that is being read: how many digits it has so far, and the number that they write.
#[derive(Clone, Copy, Default)]
pub(crate) struct Word {
    digits: u32,
    value: u32,
}

// The caller's buffer, with the words that ended in its front.
#[derive(Drop)]
pub(crate) struct Written<'a> {
    pub(crate) buffer: &'a mut [u32],
    pub(crate) count: usize,
}

// Whether a byte stands between words.
pub(crate) fn is_white(byte: u8) -> bool
    ensures { result ≡ white byte }
{
    matches!(byte, b' ' | b'\t' | b'\n' | b'\r')
}

impl Word {
    // The word with a byte for its next digit, or none where it cannot take that byte.
    #[tactic(auto, using(crate::proofs::Steps::below_room))]
    pub(crate) fn lengthen(self, byte: u8) -> Option<Word>
        requires range { InRange self }
        ensures value { result ≡ lengthened self byte }
        ensures range { IfSome result InRange }
    {
        if self.digits >= 8 {
            return None;
        }
        let digit = char::from(byte).to_digit(16)?;
        Some(Word {
            digits: self.digits + 1,
            value: self.value * 16 + digit,
        })
    }
}

impl Written<'_> {
    // Ends a word: where it has a digit, it goes after the words that are there.
    pub(crate) fn end(&mut self, word: Word)
        requires room { 0 < word.digits → self.old.count < length self.old.buffer.now }
        ensures { Ends word self.old self.new }
    {
        if word.digits > 0 {
            self.buffer[self.count] = word.value;
            self.count += 1;
        }
    }
}
