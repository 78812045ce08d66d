// What cells hold.

ghost use Rattle.std.specs.Prelude.{◌≡◌, ◌-◌, length};
ghost use Rattle.sat.specs.Clauses.{cells_of};
ghost use Rattle.cells.specs.Held.{used_cells, held, room};

use crate::store::Cells;
use crate::walk::Clauses;

impl<'a> Cells<'a> {
    // All cells, in use or free.
    pub fn room(&self) -> usize
        ensures { result ≡ room self.now }
    {
        self.numbers.len()
    }

    #[tactic(auto, using(crate::proofs::Stores::used_is))]
    pub fn free(&self) -> usize
        ensures { result ≡ room self.now - cells_of (held self.now) }
    {
        self.room() - self.used
    }

    // How many clauses are held.
    pub fn count(&self) -> usize
        ensures { result ≡ length (held self.now) }
    {
        self.count
    }

    // The cells in use.
    pub fn used(&self) -> &[u32]
        ensures { result.now ≡ used_cells self.now }
    {
        &self.numbers[..self.used]
    }

    pub fn clauses(&self) -> Clauses<'_>
        ensures { result.cells.now ≡ used_cells self.now }
    {
        Clauses::over(self.used())
    }
}
