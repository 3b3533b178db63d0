// The calls of a full map, by shifts and masks.
ghost use Rattle.std.specs.Prelude.{◌≡◌, slice_index};
ghost use Rattle.directory.specs.Directories.{size_fits};
ghost use Rattle.full_map.specs.Maps.{map_view, Makes};
ghost use Rattle.full_map.specs.Laws.{served};
ghost use Rattle.std.proofs.Common.{arith};

use crate::FullMap;
use directory::Directory;
use message::Refusal;

// Whether a size is from 1 to 64.
fn fits(size: usize) -> bool
    ensures answer { result ≡ size_fits size }
{
    (1..=64).contains(&size)
}

impl FullMap {
    /// A map without holders, or `Refusal::Unfit` where a size is not from 1 to 64.
    pub fn new(records: usize, terminals: usize) -> Result<FullMap, Refusal>
        ensures made { Makes records terminals result }
    {
        if !fits(records) || !fits(terminals) {
            return Err(Refusal::Unfit);
        }
        Ok(FullMap {
            words: [0; 64],
            records,
            terminals,
        })
    }

    // The word of a record, which is 0 where the record is not served.
    fn word(&self, r: usize) -> u64
        ensures answer { result ≡ slice_index self.now.words r }
    {
        self.words.get(r).copied().unwrap_or(0)
    }
}

impl Directory for FullMap {
    ghost view = { map_view };

    ghost sound = { λ d.
        record {
          some_records = d.sizes.0;
          most_records = d.sizes.1;
          some_terminals = d.sizes.2;
          most_terminals = d.sizes.3;
          some_limit = omega arith;
          most_limit = omega arith;
          served = served d.words d.records d.terminals d.narrow d.unused;
        } };

    fn add(&mut self, r: usize, t: usize) -> Result<(), Refusal> {
        self.check_served(r, t)?;
        self.words[r] |= 1 << t;
        Ok(())
    }

    fn clear(&mut self, r: usize) -> Result<(), Refusal> {
        if r >= self.records {
            return Err(Refusal::NoSuchRecord);
        }
        self.words[r] = 0;
        Ok(())
    }

    fn holds(&self, r: usize, t: usize) -> bool {
        t < self.terminals && self.word(r) >> t & 1 == 1
    }

    fn count(&self, r: usize) -> usize {
        self.word(r).count_ones() as usize
    }

    fn next(&self, r: usize, t: usize) -> Option<usize> {
        if t >= self.terminals {
            return None;
        }
        let from_t = self.word(r) & (u64::MAX << t);
        (from_t != 0).then(|| from_t.trailing_zeros() as usize)
    }

    fn records(&self) -> usize {
        self.records
    }

    fn terminals(&self) -> usize {
        self.terminals
    }

    fn limit(&self) -> usize {
        64
    }
}
