// How many lanes there are, and how many slots each has. Both stay as they were made.
ghost use Rattle.std.specs.Prelude.{◌≡◌};
ghost use Rattle.lanes.specs.Contents.{contents};

use crate::Lanes;

impl<'a, T: Copy> Lanes<'a, T> {
    /// How many lanes there are.
    pub fn count(&self) -> usize
        ensures { result ≡ (contents self.now).count }
    {
        self.count
    }

    /// How many slots a lane has.
    pub fn size(&self) -> usize
        ensures { result ≡ (contents self.now).size }
    {
        self.size
    }
}
