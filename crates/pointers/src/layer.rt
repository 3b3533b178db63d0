// Pointers over another directory.
ghost use Rattle.std.specs.Prelude.{◌≡◌, ◌<◌, false, slice_set, cond, nat_lt, Some, None};
ghost use Rattle.pointers.specs.Rows.{row_of, has, placed};
ghost use Rattle.pointers.specs.Layers.{layer_view, spilled, sent};
ghost use Rattle.std.proofs.Common.{rules};

use crate::rows::Row;
use crate::table::Table;
use directory::Directory;
use message::Refusal;

/// Up to four holders of each record, over a directory that takes those that find no place. The holders are those of
/// both; sizes and limit are those below.
#[derive(Drop)]
pub struct Pointers<D: Directory> {
    table: Table,
    below: D,
}

impl<D: Directory> Pointers<D> {
    /// No pointer is in use: the holders are those below.
    pub fn new(below: D) -> Pointers<D>
        ensures holders { layer_view D.Directory.view result ≡ D.Directory.view below }
    {
        Pointers {
            table: Table::new(),
            below,
        }
    }

    // The row of a record, or none where the record is not served.
    fn row(&self, r: usize) -> Option<Row>
        ensures value { result
            ≡ cond (nat_lt r (D.Directory.view self.now.below).records) (Some (row_of self.now.table.rows r)) None }
    {
        if r >= self.below.records() {
            return None;
        }
        Some(self.table.row(r))
    }

    // Places a new holder, and sends below what makes way for it.
    fn place(&mut self, r: usize, t: usize)
        requires within { r < 64 }
        requires lacks { has (row_of self.old.table.rows r).numbers t ≡ false }
        ensures rows { self.new.table.rows
            ≡ slice_set self.old.table.rows r (placed (row_of self.old.table.rows r) t).row }
        ensures below { D.Directory.view self.new.below
            ≡ sent (D.Directory.view self.old.below) r (placed (row_of self.old.table.rows r) t).below }
    {
        let placed = self.table.row(r).place(t);
        self.table.put(r, placed.row);
        if let Some(numbers) = placed.below {
            spill(&mut self.below, r, numbers);
        }
    }
}

// The four numbers are added below, whatever each add answers.
fn spill<D: Directory>(d: &mut D, r: usize, numbers: [usize; 4])
    ensures after { D.Directory.view d.new ≡ spilled (D.Directory.view d.old) r numbers }
{
    for n in numbers {
        let _ = d.add(r, n);
    }
}

impl<D: Directory> Directory for Pointers<D> {
    ghost view = { λ p. layer_view D.Directory.view p };

    ghost sound = { Prim.search rules };

    fn add(&mut self, r: usize, t: usize) -> Result<(), Refusal> {
        self.below.check_served(r, t)?;
        if self.holds(r, t) {
            return Ok(());
        }
        if self.count(r) >= self.below.limit() {
            return Err(Refusal::AtLimit);
        }
        self.place(r, t);
        Ok(())
    }

    fn clear(&mut self, r: usize) -> Result<(), Refusal> {
        self.below.clear(r)?;
        self.table.put(r, Row::free());
        Ok(())
    }

    fn holds(&self, r: usize, t: usize) -> bool {
        let Some(row) = self.row(r) else {
            return false;
        };
        t < self.below.terminals() && (row.has(t) || self.below.holds(r, t))
    }

    fn count(&self, r: usize) -> usize {
        let Some(row) = self.row(r) else {
            return 0;
        };
        let terminals = self.below.terminals();
        let above = row
            .numbers
            .iter()
            .filter(|&&t| t < terminals && !self.below.holds(r, t))
            .count();
        self.below.count(r) + above
    }

    fn next(&self, r: usize, t: usize) -> Option<usize> {
        let row = self.row(r)?;
        let served = t..self.below.terminals();
        row.numbers
            .iter()
            .copied()
            .filter(|u| served.contains(u))
            .chain(self.below.next(r, t))
            .min()
    }

    fn records(&self) -> usize {
        self.below.records()
    }

    fn terminals(&self) -> usize {
        self.below.terminals()
    }

    fn limit(&self) -> usize {
        self.below.limit()
    }
}
