// The sizes that a run needs, checked before anything is changed.

ghost use Rattle.std.specs.Prelude.{◌≡◌, ◌≤◌};
ghost use Rattle.std.specs.Result.{result_err};
ghost use Rattle.synthesis.specs.Sizes.{room, room_fits, candidate_need, answer_need, size_fault};

use crate::fault::RunFault;
use circuit::Model;
use sat::Solver;

pub const MAX_ROWS: usize = 1024;

pub const MAX_EXCEPTIONS: usize = 4096;

// What a solver has, or what is needed of it.
#[derive(Clone, Copy)]
pub struct Room {
    pub variables: usize,
    pub cells: usize,
}

impl Room {
    pub(crate) fn of<S: Solver>(solver: &S) -> Room
        ensures { result ≡ room (S.Solver.meaning solver.now).variables (S.Solver.meaning solver.now).cells }
    {
        Room {
            variables: solver.variables(),
            cells: solver.cells(),
        }
    }

    fn fits(self, need: Room) -> bool
        ensures { result ≡ room_fits need self }
    {
        need.variables <= self.variables && need.cells <= self.cells
    }
}

// What a run is given: places of the two rolls, the room of the two solvers, and the work buffer's length.
#[derive(Clone, Copy)]
pub struct Sizes {
    pub rows: usize,
    pub exceptions: usize,
    pub candidate: Room,
    pub answer: Room,
    pub work: usize,
}

impl Sizes {
    // What the candidate solver needs, and the answer solver.
    #[tactic(auto, using(crate::proofs::Sizing::bounds, crate::proofs::Sizing::product))]
    fn needs(&self, model: &Model<'_>) -> (Room, Room)
        requires rows { self.now.rows ≤ 1024 }
        requires exceptions { self.now.exceptions ≤ 4096 }
        ensures { result ≡ (candidate_need model.now.«record».now self.now, answer_need model.now.«record».now self.now) }
    {
        let latches = model.latches();
        let of_exception = latches + model.event_inputs() + 1;
        let gates = 10 * model.gates();
        let maximum = usize::from(model.maximum());
        let candidate = Room {
            variables: maximum + 2 * self.rows + 2,
            cells: gates + (4 * latches + 5) * self.rows + of_exception * self.exceptions + 8,
        };
        let answer = Room {
            variables: maximum + 2,
            cells: gates + (latches + 1) * self.rows + 8,
        };
        (candidate, answer)
    }

    // Refuses sizes that are too small, or too many places.
    #[tactic(auto, unfolding(crate::specs::Sizes::size_fault))]
    pub fn check(&self, model: &Model<'_>) -> Result<(), RunFault>
        ensures { result_err result ≡ size_fault model.now.«record».now self.now }
    {
        if self.rows > MAX_ROWS || self.exceptions > MAX_EXCEPTIONS {
            return Err(RunFault::TooManyPlaces);
        }
        let (candidate, answer) = self.needs(model);
        if !self.candidate.fits(candidate) {
            return Err(RunFault::CandidateSmall);
        }
        if !self.answer.fits(answer) {
            return Err(RunFault::AnswerSmall);
        }
        if self.candidate.variables.max(self.answer.variables) < self.work {
            Ok(())
        } else {
            Err(RunFault::WorkShort)
        }
    }
}
