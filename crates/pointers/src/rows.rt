// Rows of pointers.
ghost use Rattle.std.specs.Prelude.{◌≡◌, ◌<◌, IfSome};
ghost use Rattle.pointers.specs.Rows.{free_row, has, free_place, placed};

// The number of a free place, which is that of no terminal.
const FREE: usize = 64;

/// Four holder numbers. A place is free where its number is 64, which is that of no terminal; each place is freed and
/// taken by itself.
#[derive(Clone, Copy, PartialEq, Eq, Debug)]
pub struct Row {
    pub numbers: [usize; 4],
}

/// What becomes of a row when a holder is placed: the row, and the numbers that make way and go below.
#[derive(Clone, Copy, PartialEq, Eq, Debug)]
pub struct Placed {
    pub row: Row,
    pub below: Option<[usize; 4]>,
}

impl Row {
    /// A row with all places free.
    pub(crate) fn free() -> Row
        ensures value { result ≡ free_row }
    {
        Row { numbers: [FREE; 4] }
    }

    /// Whether a number stands in a place.
    pub(crate) fn has(self, t: usize) -> bool
        ensures answer { result ≡ has self.numbers t }
    {
        self.numbers.contains(&t)
    }

    /// The first free place, or none.
    pub(crate) fn free_place(self) -> Option<usize>
        ensures answer { result ≡ free_place self }
        ensures within { IfSome result (λ i. i < 4) }
    {
        self.numbers.iter().position(|n| *n == FREE)
    }

    /// Places a new holder: it takes the first free place; with none free, the four make way and it takes the first.
    pub fn place(self, t: usize) -> Placed
        ensures value { result ≡ placed self t }
    {
        match self.free_place() {
            Some(i) => {
                let mut numbers = self.numbers;
                numbers[i] = t;
                Placed {
                    row: Row { numbers },
                    below: None,
                }
            }
            None => Placed {
                row: Row {
                    numbers: [t, FREE, FREE, FREE],
                },
                below: Some(self.numbers),
            },
        }
    }
}
