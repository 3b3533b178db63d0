// A line as text.
ghost use Rattle.std.specs.Prelude.{Some};
ghost use Rattle.listing.specs.Texts.{line_text};

use crate::Line;
use std::fmt;

impl fmt::Display for Line {
    ghost output = { λ line. Some (line_text line) };

    fn fmt<W: fmt::Write>(&self, f: &mut fmt::Formatter<W>) -> fmt::Result {
        match *self {
            Line::Packet {
                place,
                source,
                kind,
                record,
                value,
            } => {
                write!(f, "{place} from {source} {kind} record {record}")?;
                if kind.carries_value() {
                    write!(f, " value {value}")?;
                }
                Ok(())
            }
            Line::Fault(fault) => write!(f, "fault {} {}", fault.place, u8::from(fault.refusal)),
            Line::Totals { packets, words } => write!(f, "{packets} packets, {words} words"),
            Line::Count { kind, packets } => write!(f, "{packets} {kind}"),
        }
    }
}
