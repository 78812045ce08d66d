// From a file to a verdict.

ghost use Rattle.std.specs.Prelude.{◌≡◌, length};
ghost use Rattle.game.specs.Models.{model_arena};
ghost use Rattle.roll.specs.Rolls.{items_of, table_of};
ghost use Rattle.synthesis.specs.Runs.{room_of, sizes_of};
ghost use Rattle.synthesis.specs.Sizes.{size_fault};
ghost use Rattle.host.specs.Served.{calls_of};
ghost use Rattle.host.specs.Whole.{Serving};
ghost use Rattle.judge.specs.Judged.{EndedBy};

use circuit::Model;
use game::{Exception, Row};
use host::{Exchange, serve};
use narrowing::Narrowing;
use roll::Roll;
use sat::Solver;
use synthesis::{RunFault, Verdict};

// Places for rows and for exceptions, and the numbers that each solver is lent.
pub const ROW_PLACES: usize = 64;

pub const EXCEPTION_PLACES: usize = 256;

pub const SOLVER_NUMBERS: usize = 16_384;

// A verdict, and the rows that show it.
#[derive(Drop)]
pub struct Judgement {
    pub verdict: Verdict,
    pub rows: Vec<Row>,
}

// Serves over two solvers of any kinds, each under the layer.
fn serve_by_layers<C: Solver + Drop, A: Solver + Drop>(
    model: &Model<'_>,
    candidate: C,
    answer: A,
    rows: &mut Roll<'_, Row>,
    exceptions: &mut Roll<'_, Exception>,
    work: &mut [u8],
    exchanges: &mut [Exchange],
) -> Result<(Verdict, usize), RunFault>
    ensures ended { EndedBy (size_fault model.now.«record».now (sizes_of (length (table_of rows.old)) (length (table_of exceptions.old)) (room_of (C.Solver.meaning candidate)) (room_of (A.Solver.meaning answer)) (length work.old))) (model_arena model.now) (length (table_of rows.old)) (length (table_of exceptions.old)) (items_of rows.new) result }
    ensures served { Serving (model_arena model.now) (items_of rows.new) exchanges.old exchanges.new result }
    ensures calls { calls_of exchanges.new ≡ calls_of exchanges.old }
{
    let mut candidate = Narrowing::new(candidate);
    let mut answer = Narrowing::new(answer);
    serve(
        model,
        &mut candidate,
        &mut answer,
        rows,
        exceptions,
        work,
        exchanges,
    )
}
