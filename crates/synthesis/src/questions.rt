// What a turn asks the two solvers. Marks and assumptions are at most 64. Each is a function of one solver and the buffer: a
// method of the search would also have to say that all the rest stays.

ghost use Rattle.std.specs.Prelude.{◌≡◌, ◌<◌, ◌≤◌, length};
ghost use Rattle.sat.specs.Clauses.{Unsatisfiable};
ghost use Rattle.encoding.specs.Laws.{answer_variables, candidate_variables};
ghost use Rattle.synthesis.specs.Asked.{Found, Replied, Excepted};
ghost use Rattle.synthesis.specs.Narrow.{exception_asked, row_from, exception_from};

use circuit::Model;
use encoding::{
    answer_in, care_of, due_literal, event_in, push_answer, push_event, push_state, state_in,
};
use game::{Exception, Pair, Row};
use sat::{Answer, Literals, MAX_LITERALS, NarrowingSolver, Solver, SolverFault};

// A state and an event at which something is due by so many rows.
pub fn find_pair<C: Solver>(
    model: &Model<'_>,
    candidate: &mut C,
    rows: usize,
    work: &mut [u8],
) -> Result<Option<Pair>, SolverFault>
    requires few { rows ≤ 1024 }
    requires variables { candidate_variables model.now.«record».now rows ≤ (C.Solver.meaning candidate.old).variables }
    requires room { (C.Solver.meaning candidate.old).variables < length work.old }
    ensures cases { Found model.now.«record».now rows (C.Solver.meaning candidate.old).clauses result }
    ensures same { C.Solver.meaning candidate.new ≡ C.Solver.meaning candidate.old }
{
    let due = due_literal(model, rows);
    let mut marks = [0u8; MAX_LITERALS];
    match candidate.decide(&[due], work, &mut marks)? {
        Answer::Yes => Ok(Some(Pair {
            state: state_in(model, work),
            event: event_in(model, work),
        })),
        Answer::No => Ok(None),
    }
}

// The row whose care is the marked ones of the state's literals, which come after the event's.
#[tactic(auto, using(crate::proofs::Sizing::bounds))]
fn row_from(model: &Model<'_>, pair: Pair, marks: &[u8]) -> Row
    requires { length marks.now ≡ 64 }
    ensures { result ≡ row_from model.now.«record».now pair.state pair.event marks.now }
{
    let events = model.event_inputs();
    let care = care_of(&marks[events..events + model.latches()]);
    Row {
        care,
        value: pair.state & care,
        event: pair.event,
    }
}

// An answer to the pair that is good, or a row around its state.
#[tactic(auto, using(crate::proofs::Asking::row_put, crate::proofs::Asking::found_answer, crate::proofs::Asking::no_answer))]
pub fn find_answer<A: NarrowingSolver>(
    model: &Model<'_>,
    answer: &mut A,
    pair: Pair,
    work: &mut [u8],
) -> Result<Result<u32, Row>, SolverFault>
    requires variables { answer_variables model.now.«record».now ≤ (A.Solver.meaning answer.old).variables }
    requires room { (A.Solver.meaning answer.old).variables < length work.old }
    ensures cases { Replied model.now.«record».now (A.Solver.meaning answer.old).clauses pair.state pair.event result }
    ensures same { A.Solver.meaning answer.new ≡ A.Solver.meaning answer.old }
{
    let mut assumed = Literals::none();
    push_event(&mut assumed, model, pair.event);
    push_state(&mut assumed, model, pair.state);
    let mut marks = [0u8; MAX_LITERALS];
    match answer.narrow(assumed.as_slice(), model.event_inputs(), work, &mut marks)? {
        Answer::Yes => Ok(Ok(answer_in(model, work))),
        Answer::No => Ok(Err(row_from(model, pair, &marks))),
    }
}

// The exception whose cares are the marked ones of the state's and the event's literals, which come after the first ones.
#[tactic(auto, using(crate::proofs::Sizing::bounds, crate::proofs::Asking::exception_of))]
fn exception_from(model: &Model<'_>, pair: Pair, marks: &[u8]) -> Exception
    requires { length marks.now ≡ 64 }
    ensures { result ≡ exception_from model.now.«record».now pair.state pair.event marks.now }
{
    let count = model.event_inputs();
    let states = model.answer_inputs() + 1;
    let events = states + model.latches();
    let state_care = care_of(&marks[states..events]);
    let event_care = care_of(&marks[events..events + count]);
    Exception {
        state_care,
        state_value: pair.state & state_care,
        event_care,
        event_value: pair.event & event_care,
    }
}

// The exception around a pair to which the answer is good by so many rows: the solver says no.
#[tactic(auto, using(crate::proofs::Asking::exception_put, crate::proofs::Asking::no_candidate))]
pub fn find_exception<C: NarrowingSolver>(
    model: &Model<'_>,
    candidate: &mut C,
    rows: usize,
    pair: Pair,
    answer: u32,
    work: &mut [u8],
) -> Result<Exception, SolverFault>
    requires few { rows ≤ 1024 }
    requires variables { candidate_variables model.now.«record».now rows ≤ (C.Solver.meaning candidate.old).variables }
    requires room { (C.Solver.meaning candidate.old).variables < length work.old }
    requires none { Unsatisfiable (C.Solver.meaning candidate.old).clauses (exception_asked model.now.«record».now pair.state pair.event answer rows) }
    ensures cases { Excepted model.now.«record».now (C.Solver.meaning candidate.old).clauses pair.state pair.event answer rows result }
    ensures same { C.Solver.meaning candidate.new ≡ C.Solver.meaning candidate.old }
{
    let mut assumed = Literals::none();
    push_answer(&mut assumed, model, answer);
    assumed.push(due_literal(model, rows));
    push_state(&mut assumed, model, pair.state);
    push_event(&mut assumed, model, pair.event);
    let mut marks = [0u8; MAX_LITERALS];
    let first = model.answer_inputs() + 1;
    match candidate.narrow(assumed.as_slice(), first, work, &mut marks)? {
        Answer::Yes => unreachable(),
        Answer::No => Ok(exception_from(model, pair, &marks)),
    }
}
