// What a region says of states and steps: which states are lost, and which steps a host may make.

ghost use Rattle.std.specs.Prelude.{◌≡◌, ℕ, ◌<◌, true, false, is_some};
ghost use Rattle.game.specs.Models.{step_in};
ghost use Rattle.game.specs.Rows.{covered};
ghost use Rattle.region.specs.Judged.{Judged, passing, Passes, Lowest};
ghost use Rattle.region.specs.Parts.{arena_in, rows_in};

use crate::region::Region;
use circuit::StepFault;
use game::is_covered;

// An answer whose step is not bad and ends uncovered, and the state to which it leads.
#[derive(Clone, Copy, PartialEq, Eq, Debug)]
pub struct Passed {
    pub answer: u32,
    pub next: u32,
}

impl<'a> Region<'a> {
    // Whether some row covers the state. The states that are covered are the lost ones.
    pub fn covers(&self, state: u32) -> bool
        ensures value { result ≡ covered (rows_in self.now) state }
        ensures judged { Judged (arena_in self.now) state result }
    {
        is_covered(self.rows, state)
    }

    // The model's step: whether it is bad, and the next state.
    pub fn step(&self, state: u32, event: u32, answer: u32) -> Result<(bool, u32), StepFault>
        ensures { result ≡ step_in (arena_in self.now) state event answer }
    {
        game::step(&self.model, state, event, answer)
    }

    // The next state, where the step is not bad and ends uncovered.
    pub fn passes(&self, state: u32, event: u32, answer: u32) -> Option<u32>
        ensures value { result ≡ passing (arena_in self.now) (rows_in self.now) state event answer }
        ensures judged { Passes (arena_in self.now) state event answer result }
    {
        let (bad, next) = self.step(state, event, answer).ok()?;
        (!bad && !self.covers(next)).then_some(next)
    }

    // The lowest answer whose step is not bad and ends uncovered. At an uncovered state there is one for every event.
    pub fn lowest_passing(&self, state: u32, event: u32) -> Option<Passed>
        ensures cases { Lowest (arena_in self.now) (rows_in self.now) state event result }
        ensures answered { state < (arena_in self.now).states → event < (arena_in self.now).events → covered (rows_in self.now) state ≡ false → is_some result ≡ true }
    {
        (0..self.answers()).find_map(|answer| {
            let next = self.passes(state, event, answer)?;
            Some(Passed { answer, next })
        })
    }
}
