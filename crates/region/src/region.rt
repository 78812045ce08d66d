// A region: a model, and rows that cover exactly the states from which the host cannot avoid bad steps for ever, and not reset.

ghost use Rattle.std.specs.Prelude.{◌≡◌, false};
ghost use Rattle.game.specs.Models.{model_arena};
ghost use Rattle.game.specs.Rows.{covered};
ghost use Rattle.game.specs.Runs.{Exact};
ghost use Rattle.region.specs.Exact.{SafeOutside, LostInside};

use circuit::Model;
use game::Row;

#[derive(Clone, Copy)]
pub struct Region<'a> {
    pub(crate) model: Model<'a>,
    pub(crate) rows: &'a [Row],
    ghost safe: { SafeOutside (model_arena model) rows.now },
    ghost lost: { LostInside (model_arena model) rows.now },
    ghost reset: { covered rows.now 0 ≡ false },
}

impl<'a> Region<'a> {
    // Joins a model with the rows of a kept run of it. It refuses nothing: the run promises that the rows are exact.
    pub fn join(model: Model<'a>, rows: &'a [Row]) -> Region<'a>
        requires { Exact (model_arena model) rows.now }
        ensures same_model { result.model ≡ model.entry }
        ensures same_rows { result.rows.now ≡ rows.now }
    {
        Region { model, rows }
    }
}
