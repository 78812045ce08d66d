// A walk over the clauses in cells.

ghost use Rattle.std.specs.Prelude.{◌≡◌};
ghost use Rattle.std.specs.Iterator.{YieldsFirstBy, item_count};
ghost use Rattle.cells.specs.Cells.{clauses, Coded, Small};

use crate::clause::HeldClause;

// The clauses that are left.
#[derive(Drop)]
pub struct Clauses<'a> {
    cells: &'a [u32],
    ghost coded: { Coded cells.now },
    ghost small: { Small cells.now },
}

impl<'a> Clauses<'a> {
    pub(crate) fn over(cells: &'a [u32]) -> Clauses<'a>
        requires coded { Coded cells.now }
        requires small { Small cells.now }
        ensures { result.cells.now ≡ cells.now }
    {
        Clauses { cells }
    }
}

impl<'a> Iterator for Clauses<'a> {
    type Item = HeldClause<'a>;

    ghost next_gives = { YieldsFirstBy (λ c. c.codes.now) (λ s. clauses s.cells.now) };

    ghost remaining = { item_count (λ s. clauses s.cells.now) };

    #[tactic(auto, using(crate::proofs::Codes::parted, crate::proofs::Codes::clauses_none))]
    fn next(&mut self) -> Option<HeldClause<'a>> {
        let (length, rest) = self.cells.split_first()?;
        let (clause, rest) = rest.split_at(*length as usize);
        self.cells = rest;
        Some(HeldClause::of(clause))
    }
}
