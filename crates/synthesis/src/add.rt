// Adding what a turn found: a row or an exception.

ghost use Rattle.std.specs.Prelude.{◌≡◌};
ghost use Rattle.game.specs.Rows.{GoodRow, GoodException, RowDue, ExceptionDue};
ghost use Rattle.roll.specs.Rolls.{items_of};
ghost use Rattle.synthesis.specs.Runs.{Turning, Turned, arena};
ghost use Rattle.synthesis.specs.Searches.{Same, lent_to};

use crate::fault::RunFault;
use crate::hold::{fixed_clauses, hold_row};
use crate::state::Search;
use crate::verdict::Verdict;
use encoding::hold_exception;
use game::{Exception, Row};
use roll::Covering;
use sat::NarrowingSolver;

impl<C: NarrowingSolver, A: NarrowingSolver> Search<'_, '_, '_, '_, C, A> {
    // Adds a row. It drops the exceptions, since fewer rows made them good. Where the row covers reset the host is lost.
    pub fn add_row(&mut self, row: Row) -> Result<Option<Verdict>, RunFault>
        requires turning { Turning (lent_to self.old) }
        requires good { GoodRow (arena (lent_to self.old)) (items_of self.old.rows.now) row }
        requires due { RowDue (arena (lent_to self.old)) (items_of self.old.rows.now) }
        ensures after { Turned (lent_to self.old) (lent_to self.new) result }
        ensures work { self.new.work.now ≡ self.old.work.now }
        ensures same { Same self.old self.new }
    {
        let place = self.rows.count();
        let fixed = fixed_clauses(self.model, self.rows.items());
        self.rows
            .append(row)
            .map_err(|_| RunFault::RowsFull(place))?;
        hold_row(self.model, self.candidate, self.answer, row, place, fixed)?;
        self.exceptions.clear(Exception::BLANK);
        Ok(row.covers(&0).then_some(Verdict::Lost))
    }

    // Adds an exception for the rows that there are. They stay, and the answer solver and the buffer too.
    pub fn add_exception(&mut self, exception: Exception) -> Result<Option<Verdict>, RunFault>
        requires turning { Turning (lent_to self.old) }
        requires good { GoodException (arena (lent_to self.old)) (items_of self.old.rows.now) (items_of self.old.exceptions.now) exception }
        requires due { ExceptionDue (arena (lent_to self.old)) (items_of self.old.rows.now) (items_of self.old.exceptions.now) }
        ensures after { Turned (lent_to self.old) (lent_to self.new) result }
        ensures rows { self.new.rows.now ≡ self.old.rows.now }
        ensures answer { self.new.answer.now ≡ self.old.answer.now }
        ensures work { self.new.work.now ≡ self.old.work.now }
        ensures same { Same self.old self.new }
    {
        let rows = self.rows.count();
        self.exceptions
            .append(exception)
            .map_err(|_| RunFault::ExceptionsFull(rows))?;
        hold_exception(self.model, self.candidate, exception)?;
        Ok(None)
    }
}
