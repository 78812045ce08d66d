// Unit propagation: passes over the clauses until one changes nothing.

ghost use Rattle.std.specs.Prelude.{◌≡◌, length, if◌then◌else◌, nat_eq};
ghost use Rattle.splitting.specs.Cells.{Whole};
ghost use Rattle.splitting.specs.Trails.{Front};
ghost use Rattle.splitting.specs.Searches.{GoodTrail, Spreads};
ghost use Rattle.splitting.specs.Passes.{Ended, opened, pass_end};

use crate::clause::State;
use crate::reason::{LAST_PLACE, Reason};
use crate::trail::Trail;
use cells::clause_at;

// What a pass has met so far.
#[derive(Clone, Copy)]
pub enum Pass {
    // Only satisfied clauses.
    Clean,
    // No clause that forces, and an open one with this literal first.
    Open(u32),
    // A clause that forced a literal.
    Changed,
}

impl Pass {
    // An open clause, whose first literal without a value this is.
    fn with_open(self, literal: u32) -> Pass
        ensures { result ≡ opened self literal }
    {
        match self {
            Pass::Clean => Pass::Open(literal),
            Pass::Open(first) => Pass::Open(first),
            Pass::Changed => Pass::Changed,
        }
    }

    // What a pass comes to at the last clause, where every clause is satisfied or not; after a change another is due.
    fn end(self, whole: bool) -> Option<End>
        ensures { result ≡ pass_end self whole }
    {
        match self {
            Pass::Clean => Some(End::Done),
            Pass::Open(literal) => Some(End::Choose(literal)),
            Pass::Changed if whole => Some(End::Done),
            Pass::Changed => None,
        }
    }
}

// Why a propagation ended.
#[derive(Clone, Copy)]
pub enum End {
    // Every clause is satisfied.
    Done,
    // Every literal of the clause at this place of the cells is false.
    Stuck(usize),
    // Nothing is forced. The literal is the first without a value in the first clause that is not satisfied.
    Choose(u32),
}

#[derive(Clone, Copy)]
pub struct Spread {
    // Every clause before this place of the cells is satisfied.
    pub front: usize,
    pub end: End,
}

// The place before which every clause is satisfied, past a satisfied clause.
fn past(front: usize, at: usize, next: usize) -> usize
    ensures { result ≡ (if nat_eq front at then next else front) }
{
    if front == at { next } else { front }
}

impl<'a> Trail<'a> {
    // Goes over the clauses from `front` on, again and again. A clause before the first one that is not satisfied is
    // never read again before a backtrack, and a pass without a change is the last.
    // That the cells are whole is asked by each function of the search: a struct round three references needs a clause for each.
    pub fn propagate(&mut self, cells: &[u32], mut front: usize) -> Spread
        requires whole { Whole cells.now (length self.old.value.now) }
        requires good { GoodTrail cells.now self.old }
        requires front { Front cells.now self.old.value.now front }
        ensures good { GoodTrail cells.now self.new }
        ensures front { Front cells.now self.new.value.now result.front }
        ensures spread { Spreads self.old self.new }
        ensures end { Ended result.end cells.now self.new.value.now self.new.literals.now self.new.count }
    {
        let mut at = front;
        let mut pass = Pass::Clean;
        // No `for`: the place goes back to the front after a change, and each clause says how far the next is.
        'sweep: loop {
            if at >= cells.len() {
                match pass.end(front >= cells.len()) {
                    Some(end) => return Spread { front, end },
                    None => {
                        at = front;
                        pass = Pass::Clean;
                    }
                }
            } else {
                let clause = clause_at(cells, at);
                let next = at + 1 + clause.len();
                match self.state(clause) {
                    State::Satisfied => front = past(front, at, next),
                    State::Open(literal) => pass = pass.with_open(literal),
                    State::Conflict => {
                        let end = End::Stuck(at);
                        return Spread { front, end };
                    }
                    State::Forces(literal) if at <= LAST_PLACE => {
                        self.push(literal, Reason::Forced(at));
                        pass = Pass::Changed;
                        front = past(front, at, next);
                    }
                    // No reason can hold the clause's place, so its literal is left to a decision.
                    State::Forces(literal) => pass = pass.with_open(literal),
                }
                at = next;
            }
        }
    }
}
