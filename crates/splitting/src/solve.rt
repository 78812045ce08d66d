// The question whether the held clauses and some assumptions can be satisfied.

ghost use Rattle.std.specs.Prelude.{◌≡◌, ℕ, ◌<◌, true, false, length, slice_index};
ghost use Rattle.cells.specs.Cells.{codes};
ghost use Rattle.cells.specs.Held.{used_cells};
ghost use Rattle.sat.specs.Faults.{in_range};
ghost use Rattle.splitting.specs.Cells.{Holds};
ghost use Rattle.splitting.specs.Trails.{AllMet, Refutes};
ghost use Rattle.splitting.specs.Held.{meaning_of};

use crate::solver::Splitting;
use literal::Literal;

impl<'a> Splitting<'a> {
    // Whether some values satisfy every clause and make every assumption true; they are then in the table.
    #[tactic(auto, using(crate::proofs::Ranges::whole_of, crate::proofs::Ranges::range_table))]
    pub(crate) fn solve(&mut self, assumed: &[Literal]) -> bool
        requires { in_range self.old.variables assumed.now ≡ true }
        ensures same { meaning_of self.new ≡ meaning_of self.old }
        ensures met { result ≡ true → AllMet (used_cells self.old.cells) self.new.trail.value.now }
        ensures granted { result ≡ true → (k : ℕ) → k < length assumed.now → Holds self.new.trail.value.now (slice_index (codes assumed.now) k) }
        ensures none { result ≡ false → Refutes (used_cells self.old.cells) self.new.seen.now (codes assumed.now) }
    {
        self.trail.ask(self.cells.used(), assumed, self.seen)
    }
}
