// One turn of a run.

ghost use Rattle.synthesis.specs.Runs.{Turning, Turned};
ghost use Rattle.synthesis.specs.Searches.{Same, lent_to};

use crate::fault::RunFault;
use crate::questions::{find_answer, find_exception, find_pair};
use crate::state::Search;
use crate::verdict::Verdict;
use sat::NarrowingSolver;

impl<C: NarrowingSolver, A: NarrowingSolver> Search<'_, '_, '_, '_, C, A> {
    // Asks what is due. Where nothing is the host is kept; else a row or an exception is added, and the host is lost where
    // a row covers reset.
    pub fn turn(&mut self) -> Result<Option<Verdict>, RunFault>
        requires turning { Turning (lent_to self.old) }
        ensures after { Turned (lent_to self.old) (lent_to self.new) result }
        ensures same { Same self.old self.new }
    {
        let rows = self.rows.count();
        let Some(pair) = find_pair(self.model, self.candidate, rows, self.work)? else {
            return Ok(Some(Verdict::Kept));
        };
        match find_answer(self.model, self.answer, pair, self.work)? {
            Err(row) => self.add_row(row),
            Ok(given) => {
                let exception = find_exception(
                    self.model,
                    self.candidate,
                    rows,
                    pair,
                    given,
                    self.work,
                )?;
                self.add_exception(exception)
            }
        }
    }
}
