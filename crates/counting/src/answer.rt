// An answer with what it leaves in the buffers.

ghost use Rattle.std.specs.Prelude.{◌≡◌, ℕ, ◌+◌, ◌<◌, ◌≤◌, false, length, drop, if◌then◌else◌, Ok, slice_index, slice_index_or};
ghost use Rattle.sat.specs.Answers.{Decided};
ghost use Rattle.sat.specs.declared.answer.Answer.TheVariants.{No};
ghost use Rattle.cells.specs.Held.{held};

use crate::question::Question;
use crate::search::PLACES;
use sat::{Answer, Solver, fill_front};

// Writes the values of variables up to the largest as bytes; variable 0 is false. The splitting solver has the same over its own
// numbers: one function of a test of variables was longer, by the clauses about the test.
fn write_values(table: &[bool; PLACES], variables: usize, values: &mut [u8])
    requires few { variables ≤ 20 }
    requires room { variables < length values.old }
    ensures zero { slice_index values.new 0 ≡ 0 }
    ensures value { (k : ℕ) → 0 < k → k ≤ variables → slice_index values.new k ≡ (if slice_index_or table.now k false then 1 else 0) }
    ensures rest { drop (variables + 1) values.new ≡ drop (variables + 1) values.old }
{
    for (variable, value) in values[..variables + 1].iter_mut().enumerate() {
        *value = u8::from(variable > 0 && table[variable]);
    }
}

impl<'q, 'a> Question<'q, 'a> {
    // Decides by trying all values; a no marks every assumption.
    pub fn answer(&self, values: &mut [u8], marks: &mut [u8]) -> Answer
        requires room { self.now.solver.now.variables < length values.old }
        requires marks_room { length self.now.assumed.now ≤ length marks.old }
        ensures cases { Decided self.now.solver.now.variables (held self.now.solver.now.cells) self.now.assumed.now values.old marks.old values.new marks.new (Ok result) }
        ensures all { result ≡ No → (k : ℕ) → k < length self.now.assumed.now → slice_index marks.new k ≡ 1 }
    {
        match self.solve() {
            Some(table) => {
                write_values(&table, self.solver.variables(), values);
                Answer::Yes
            }
            None => {
                fill_front(marks, self.assumed.len(), 1);
                Answer::No
            }
        }
    }
}
