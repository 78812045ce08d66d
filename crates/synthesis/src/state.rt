// What a run works on.

ghost use Rattle.synthesis.specs.Runs.{Roomy, lent};

use circuit::Model;
use game::{Exception, Row};
use roll::Roll;
use sat::NarrowingSolver;

// The candidate solver is asked for what is due, the answer solver for answers; `work` takes their values.
// What a turn needs is no ghost field: a run begins and ends without it.
#[derive(Drop)]
pub struct Search<'a, 'm, 'r, 'e, C: NarrowingSolver, A: NarrowingSolver> {
    pub(crate) model: &'a Model<'m>,
    pub(crate) candidate: &'a mut C,
    pub(crate) answer: &'a mut A,
    pub(crate) rows: &'a mut Roll<'r, Row>,
    pub(crate) exceptions: &'a mut Roll<'e, Exception>,
    pub(crate) work: &'a mut [u8],
    ghost room: { Roomy (lent model.now rows.now exceptions.now (C.Solver.meaning candidate.now) (A.Solver.meaning answer.now) work.now) },
}
