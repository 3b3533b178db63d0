// The rows of all records.
ghost use Rattle.std.specs.Prelude.{◌≡◌, ℕ, ◌<◌, true, length, replicate, slice_set};
ghost use Rattle.pointers.specs.Rows.{free_row, row_of, apart};

use crate::rows::Row;

/// A row for each record. No row has a number twice.
#[derive(Drop)]
pub struct Table {
    rows: [Row; 64],
    ghost size: { length rows ≡ 64 },
    ghost once: { (r : ℕ) → apart (row_of rows r).numbers ≡ true },
}

impl Table {
    /// A table in which every place is free.
    pub(crate) fn new() -> Table
        ensures rows { result.rows ≡ replicate 64 free_row }
    {
        Table {
            rows: [Row::free(); 64],
        }
    }

    /// A copy of the row of a record.
    pub(crate) fn row(&self, r: usize) -> Row
        requires within { r < 64 }
        ensures value { result ≡ row_of self.now.rows r }
    {
        self.rows[r]
    }

    /// Writes the row of a record back.
    pub(crate) fn put(&mut self, r: usize, row: Row)
        requires within { r < 64 }
        requires once { apart row.numbers ≡ true }
        ensures rows { self.new.rows ≡ slice_set self.old.rows r row }
    {
        self.rows[r] = row;
    }
}
