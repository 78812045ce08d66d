// The whole job: a run, and where the host is kept a region, a session and a list of calls.

ghost use Rattle.std.specs.Prelude.{◌≡◌};
ghost use Rattle.game.specs.Models.{model_arena};
ghost use Rattle.roll.specs.Rolls.{items_of};
ghost use Rattle.region.specs.Parts.{arena_in, rows_in};
ghost use Rattle.session.specs.Laws.{Law};
ghost use Rattle.session.specs.Sessions.{Stage, waiting};
ghost use Rattle.synthesis.specs.Runs.{RunGives, lent};
ghost use Rattle.host.specs.Served.{Served, ServedAlike, calls_of};
ghost use Rattle.host.specs.Whole.{Serving};

use crate::answer::Session;
use crate::exchange::Exchange;
use circuit::Model;
use game::{Exception, Row};
use region::Region;
use roll::Roll;
use sat::NarrowingSolver;
use session::open;
use synthesis::{RunFault, Verdict, run};

// Opens a session and makes the calls on it, one after another.
fn follow(region: &Region<'_>, exchanges: &mut [Exchange])
    ensures calls { calls_of exchanges.new ≡ calls_of exchanges.old }
    ensures served { (end : Stage) × Served (arena_in region.now) (waiting 0) exchanges.new end }
    ensures law { Law (arena_in region.now) (rows_in region.now) }
{
    let mut session = Session::from(open(region));
    // A loop: a fold would write each exchange and hand the session on in its closure, which is no plainer.
    for exchange in exchanges.iter_mut() {
        let (after, reply) = session.answer(region, exchange.call);
        exchange.reply = Some(reply);
        session = after;
    }
}

// Decides whether the host can keep its rules for ever from reset, and where it can serves the calls on a session.
#[tactic(auto, using(crate::proofs::OneTelling::served_alike, crate::proofs::Judging::judged, crate::proofs::Judging::attended))]
pub fn serve<C: NarrowingSolver, A: NarrowingSolver>(
    model: &Model<'_>,
    candidate: &mut C,
    answer: &mut A,
    rows: &mut Roll<'_, Row>,
    exceptions: &mut Roll<'_, Exception>,
    work: &mut [u8],
    exchanges: &mut [Exchange],
) -> Result<(Verdict, usize), RunFault>
    ensures cases { RunGives (lent model.now rows.old exceptions.old (C.Solver.meaning candidate.old) (A.Solver.meaning answer.old) work.old) (lent model.now rows.new exceptions.new (C.Solver.meaning candidate.new) (A.Solver.meaning answer.new) work.new) result }
    ensures calls { calls_of exchanges.new ≡ calls_of exchanges.old }
    ensures served { Serving (model_arena model.now) (items_of rows.new) exchanges.old exchanges.new result }
    ensures alike { ServedAlike (model_arena model.now) }
{
    let (verdict, count) = run(model, candidate, answer, rows, exceptions, work)?;
    match verdict {
        Verdict::Kept => follow(&Region::join(*model, rows.items()), exchanges),
        Verdict::Lost => {}
    }
    Ok((verdict, count))
}
