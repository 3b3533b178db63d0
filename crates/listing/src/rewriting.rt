// Words written again, and compared.
ghost use Rattle.std.specs.Prelude.{◌≡◌, length, Some};
ghost use Rattle.stream.specs.Rewriting.{rewrite_answer, rewritten};
ghost use Rattle.listing.specs.Rewriting.{compared, rewriting_text};

use packet::Fault;
use std::fmt;

/// Whether words that were written again came out the same.
#[derive(Clone, Copy, PartialEq, Eq, Debug)]
pub enum Rewritten {
    Same,
    Different,
}

impl fmt::Display for Rewritten {
    ghost output = { λ r. Some (rewriting_text r) };

    fn fmt<W: fmt::Write>(&self, f: &mut fmt::Formatter<W>) -> fmt::Result {
        match *self {
            Rewritten::Same => f.write_str("written again: the same words"),
            Rewritten::Different => f.write_str("written again: other words"),
        }
    }
}

/// Writes the packets of words again into a buffer that is at least as long, and compares what was written with the words.
/// Words that are accepted to the end always come out the same.
pub fn compare_rewritten(words: &[u32], again: &mut [u32]) -> Result<Rewritten, Fault>
    ensures answer { result ≡ compared (rewrite_answer words.now (length again.old)) }
    ensures buffer { again.new ≡ rewritten words.now again.old }
{
    stream::rewrite(words, again)?;
    if again.starts_with(words) {
        Ok(Rewritten::Same)
    } else {
        Ok(Rewritten::Different)
    }
}
