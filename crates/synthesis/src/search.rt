// The run: turns until the verdict is known or a roll is full.

ghost use Rattle.std.specs.Prelude.{◌≡◌};
ghost use Rattle.synthesis.specs.Runs.{Turning, Halted, Ran, RunGives, lent};
ghost use Rattle.synthesis.specs.Searches.{Same, lent_to};

use crate::fault::RunFault;
use crate::sizes::{Room, Sizes};
use crate::state::Search;
use crate::verdict::Verdict;
use circuit::Model;
use game::{Exception, Row};
use roll::Roll;
use sat::NarrowingSolver;

impl<C: NarrowingSolver, A: NarrowingSolver> Search<'_, '_, '_, '_, C, A> {
    // Turns, one after another. Each adds a row, or an exception to the same rows, so they end.
    fn take_turns(&mut self) -> Result<Verdict, RunFault>
        requires turning { Turning (lent_to self.old) }
        ensures after { Halted (lent_to self.new) result }
        ensures same { Same self.old self.new }
    {
        loop {
            if let Some(verdict) = self.turn()? {
                return Ok(verdict);
            }
        }
    }

    // The whole run.
    fn run(&mut self) -> Result<(Verdict, usize), RunFault>
        ensures after { Ran (lent_to self.old) (lent_to self.new) result }
        ensures same { Same self.old self.new }
    {
        self.begin()?;
        let ended = self.take_turns();
        self.finish()?;
        Ok((ended?, self.rows.count()))
    }
}

// The same where all is lent equally long, as a struct takes it; `run` asks that of no caller.
fn run_equally<'a, C: NarrowingSolver, A: NarrowingSolver>(
    model: &'a Model<'_>,
    candidate: &'a mut C,
    answer: &'a mut A,
    rows: &'a mut Roll<'_, Row>,
    exceptions: &'a mut Roll<'_, Exception>,
    work: &'a mut [u8],
) -> Result<(Verdict, usize), RunFault>
    ensures cases { RunGives (lent model.now rows.old exceptions.old (C.Solver.meaning candidate.old) (A.Solver.meaning answer.old) work.old) (lent model.now rows.new exceptions.new (C.Solver.meaning candidate.new) (A.Solver.meaning answer.new) work.new) result }
{
    let sizes = Sizes {
        rows: rows.places(),
        exceptions: exceptions.places(),
        candidate: Room::of(candidate),
        answer: Room::of(answer),
        work: work.len(),
    };
    sizes.check(model)?;
    let mut search = Search {
        model,
        candidate,
        answer,
        rows,
        exceptions,
        work,
    };
    search.run()
}

// Decides whether the host can keep its rules for ever from reset, and leaves the rows that show it. The candidate solver
// is asked for what is due, the answer solver for answers; `work` takes their values.
pub fn run<C: NarrowingSolver, A: NarrowingSolver>(
    model: &Model<'_>,
    candidate: &mut C,
    answer: &mut A,
    rows: &mut Roll<'_, Row>,
    exceptions: &mut Roll<'_, Exception>,
    work: &mut [u8],
) -> Result<(Verdict, usize), RunFault>
    ensures cases { RunGives (lent model.now rows.old exceptions.old (C.Solver.meaning candidate.old) (A.Solver.meaning answer.old) work.old) (lent model.now rows.new exceptions.new (C.Solver.meaning candidate.new) (A.Solver.meaning answer.new) work.new) result }
{
    run_equally(model, candidate, answer, rows, exceptions, work)
}
