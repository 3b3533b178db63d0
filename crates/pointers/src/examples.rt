// The worked example of a row that spills.
ghost use Rattle.std.specs.Prelude.{◌≡◌};
ghost use Rattle.pointers.specs.Rows.{placed};
ghost use Rattle.pointers.specs.Examples.{full_row, Spills};

use crate::rows::{Placed, Row};

/// Terminal 9 is placed in a row with the pointers 0, 1, 2 and 3: it stands there alone, and the four are below.
pub fn worked_example() -> Placed
    ensures value { result ≡ placed full_row 9 }
    ensures spills { Spills }
{
    Row {
        numbers: [0, 1, 2, 3],
    }
    .place(9)
}
