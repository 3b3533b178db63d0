// Why a text is refused, and what is printed of it.
ghost use Rattle.std.specs.Prelude.{Some};
ghost use Rattle.hex_text.specs.Faults.{fault_text};

use std::fmt;

/// Why a text is refused.
#[derive(Clone, Copy, PartialEq, Eq, Debug)]
pub enum TextFault {
    /// The text has more than 1,048,576 bytes.
    Long,
    /// The buffer for the words is shorter than the text.
    Short,
    /// A byte that no word can take, at a line and a column, both from 1.
    Stray { line: usize, column: usize },
}

impl fmt::Display for TextFault {
    ghost output = { λ fault. Some (fault_text fault) };

    fn fmt<W: fmt::Write>(&self, f: &mut fmt::Formatter<W>) -> fmt::Result {
        match *self {
            TextFault::Long => f.write_str("the text is longer than 1048576 bytes"),
            TextFault::Short => f.write_str("the buffer for the words is shorter than the text"),
            TextFault::Stray { line, column } => write!(
                f,
                "line {line}, column {column}: not a hexadecimal word"
            ),
        }
    }
}
