// Narrowing: each assumption past the first ones is left out, unless the clauses then have satisfying values.

ghost use Rattle.std.specs.Prelude.{◌≡◌, ℕ, ◌<◌, ◌≤◌, length, slice_index};
ghost use Rattle.sat.specs.Answers.{Narrowed};
ghost use Rattle.sat.specs.Clauses.{Unsatisfiable, marked};
ghost use Rattle.cells.specs.Held.{held};

use crate::question::Question;
use sat::Literals;

impl<'q, 'a> Question<'q, 'a> {
    // From marks on every assumption.
    pub fn narrow(&self, first: usize, marks: &mut [u8])
        requires first { first ≤ length self.now.assumed.now }
        requires room { length self.now.assumed.now ≤ length marks.old }
        requires all { (k : ℕ) → k < length self.now.assumed.now → slice_index marks.old k ≡ 1 }
        requires none { Unsatisfiable (held self.now.solver.now.cells) (marked self.now.assumed.now marks.old) }
        ensures { Narrowed (held self.now.solver.now.cells) self.now.assumed.now first marks.old marks.new }
    {
        // By index: each turn reads all marks, the changed one among them.
        for i in first..self.assumed.len() {
            marks[i] = 0;
            let picked = Literals::marked(self.assumed, marks);
            let rest = Question {
                solver: self.solver,
                assumed: picked.as_slice(),
            };
            if rest.solve().is_some() {
                marks[i] = 1;
            }
        }
    }
}
