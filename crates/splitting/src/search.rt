// The search: propagate, decide, and turn round the last open decision that a conflict comes from.

ghost use Rattle.std.specs.Prelude.{◌≡◌, ℕ, ◌/◌, ◌%◌, ◌<◌, true, false, ◌⊎◌, length, slice_index};
ghost use Rattle.splitting.specs.Cells.{Whole, Holds};
ghost use Rattle.splitting.specs.Trails.{Models, SeenTrue, AllMet};
ghost use Rattle.splitting.specs.Reasons.{Small, number_of};

use crate::blame::Blame;
use crate::propagate::End;
use crate::reason::{LAST_PLACE, Reason};
use crate::trail::Trail;

// The reason of an open decision: before this place of the cells every clause is satisfied. A place that is too large is
// given up for the first.
fn opening(front: usize) -> Reason
    ensures small { Small result }
    ensures odd { number_of result % 2 ≡ 1 }
    ensures half { (number_of result / 2 ≡ front) ⊎ (number_of result / 2 ≡ 0) }
{
    Reason::Open(if front <= LAST_PLACE { front } else { 0 })
}

impl<'a> Trail<'a> {
    // Whether some values satisfy every clause and make the assumptions on the trail true; they are then in the table.
    // Where there are none, the variables of those assumptions that rule them out are seen.
    pub fn search(&mut self, cells: &[u32], seen: &mut [u32]) -> bool
        requires whole { Whole cells.now (length self.old.value.now) }
        requires table { length seen.old ≡ length self.old.value.now }
        requires based { self.old.base ≡ self.old.count }
        ensures size { length self.new.value.now ≡ length self.old.value.now }
        ensures met { result ≡ true → AllMet cells.now self.new.value.now }
        ensures held { result ≡ true → (j : ℕ) → j < self.old.base → Holds self.new.value.now (slice_index self.old.literals.now j) }
        ensures none { result ≡ false → (m : ℕ → ℕ) → Models cells.now m → SeenTrue m self.old.literals.now seen.new self.old.base → ⊥ }
    {
        let mut front = 0;
        'search: loop {
            let spread = self.propagate(cells, front);
            match spread.end {
                End::Done => return true,
                End::Choose(literal) => {
                    self.push(literal, opening(spread.front));
                    front = spread.front;
                }
                End::Stuck(at) => {
                    let Blame::Place(place) = self.trace(cells, seen, at) else {
                        return false;
                    };
                    front = self.turn(place);
                }
            }
        }
    }
}
