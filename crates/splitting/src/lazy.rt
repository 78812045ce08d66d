// A trail that the first question makes.

ghost use Rattle.std.specs.Prelude.{◌≡◌, ℕ, ◌<◌, true, false, length, None, MatchOption, slice_index};
ghost use Rattle.splitting.specs.Cells.{Whole, InTable, Holds};
ghost use Rattle.cells.specs.Cells.{codes};
ghost use Rattle.splitting.specs.Trails.{AllMet, Refutes};
ghost use Rattle.splitting.specs.Columns.{width, cleared};

use crate::trail::{Columns, Trail};
use literal::Literal;
use std::marker::Model;

// Contracts see the trail that the first question makes, with no value set until then.
#[derive(Drop)]
pub struct LazyTrail<'a> {
    // It has no place before the first question, which makes it of the columns.
    trail: Trail<'a>,
    // Until then they are not cleared, so that making a solver takes no longer over more numbers.
    columns: Option<Columns<'a>>,
}

impl<'a> Model for LazyTrail<'a> {
    ghost use Rattle.splitting.specs.declared.trail.Trail.{Trail};
    ghost use Rattle.splitting.specs.Columns.{shown};

    ghost Value = { Trail };

    ghost view = { λ l. shown l.columns l.trail };
}

// Leaves no literal on the trail. The first question makes it, which clears every value; a later one takes back what
// the one before it wrote.
fn begin<'a>(trail: &mut Trail<'a>, columns: &mut Option<Columns<'a>>)
    ensures made { columns.new ≡ None }
    ensures size { length trail.new.value.now ≡ width columns.old trail.old }
    ensures count { trail.new.count ≡ 0 }
{
    match columns.take() {
        Some(columns) => *trail = Trail::new(columns),
        None => trail.clear(),
    }
}

impl<'a> LazyTrail<'a> {
    // No literal is true, and no number of the columns is written.
    pub fn new(columns: Columns<'a>) -> LazyTrail<'a>
        ensures { result ≡ cleared columns.entry }
    {
        LazyTrail {
            trail: Trail::new(Columns::none()),
            columns: Some(columns),
        }
    }

    // Whether some values satisfy every clause of the cells and make every assumption true; they are then in the table.
    #[tactic(auto, using(crate::proofs::Givens::holds_assumed))]
    pub fn ask(&mut self, cells: &[u32], assumed: &[Literal], seen: &mut [u32]) -> bool
        requires whole { Whole cells.now (length self.old.value.now) }
        requires inside { InTable (codes assumed.now) (length self.old.value.now) }
        requires table { length seen.old ≡ length self.old.value.now }
        ensures size { length self.new.value.now ≡ length self.old.value.now }
        ensures met { result ≡ true → AllMet cells.now self.new.value.now }
        ensures granted { result ≡ true → (k : ℕ) → k < length assumed.now → Holds self.new.value.now (slice_index (codes assumed.now) k) }
        ensures none { result ≡ false → Refutes cells.now seen.new (codes assumed.now) }
    {
        begin(&mut self.trail, &mut self.columns);
        seen.fill(0);
        if !self.trail.assume(assumed, seen) {
            return false;
        }
        self.trail.search(cells, seen)
    }

    // The values, or none where no question was asked: each is 0 then.
    pub fn values(&self) -> Option<&[u32]>
        ensures { MatchOption result ((v : ℕ) → slice_index self.now.value.now v ≡ 0) (λ t. t.now ≡ self.now.value.now) }
    {
        match self.columns {
            Some(_) => None,
            None => Some(self.trail.value),
        }
    }
}
