// What a run starts from and what it leaves.

ghost use Rattle.std.specs.Prelude.{◌≡◌, None};
ghost use Rattle.std.specs.Result.{result_err};
ghost use Rattle.synthesis.specs.Runs.{Turning, Finished};
ghost use Rattle.synthesis.specs.Searches.{Same, lent_to};

use crate::state::Search;
use encoding::{hold_answer_base, hold_candidate_base};
use game::{Exception, Row};
use sat::{NarrowingSolver, SolverFault};

impl<C: NarrowingSolver, A: NarrowingSolver> Search<'_, '_, '_, '_, C, A> {
    // Empties both solvers and both rolls, whatever they held, and gives both solvers the model's steps. With these sizes
    // it is never refused.
    #[tactic(auto, using(sat::proofs::Checks::keep_passes))]
    pub fn begin(&mut self) -> Result<(), SolverFault>
        ensures ok { result_err result ≡ None }
        ensures after { Turning (lent_to self.new) }
        ensures work { self.new.work.now ≡ self.old.work.now }
        ensures same { Same self.old self.new }
    {
        self.rows.clear(Row::BLANK);
        self.exceptions.clear(Exception::BLANK);
        self.candidate.keep(0)?;
        self.answer.keep(0)?;
        hold_candidate_base(self.model, self.candidate)?;
        hold_answer_base(self.model, self.answer)
    }

    // Leaves nothing behind of what a run uses on its way: no exceptions, no clauses, a work buffer of zeros. It is never
    // refused.
    #[tactic(auto, using(sat::proofs::Checks::keep_passes))]
    pub fn finish(&mut self) -> Result<(), SolverFault>
        ensures ok { result_err result ≡ None }
        ensures after { Finished (lent_to self.old) (lent_to self.new) }
        ensures rows { self.new.rows.now ≡ self.old.rows.now }
        ensures same { Same self.old self.new }
    {
        self.exceptions.clear(Exception::BLANK);
        self.work.fill(0);
        self.candidate.keep(0)?;
        self.answer.keep(0)
    }
}
