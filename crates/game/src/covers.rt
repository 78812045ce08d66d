// What a list of rows and a list of exceptions cover, and what that says of a state.

ghost use Rattle.std.specs.Prelude.{◌≡◌};
ghost use Rattle.game.specs.Rows.{covered, excepted};
ghost use Rattle.game.specs.Judged.{forcing, Judges, Forces};

use crate::exception::{Exception, Pair};
use crate::row::Row;
use roll::first_covering;

// Whether some row covers the state. Under exact rows the answer says whether the state is lost.
pub fn is_covered(rows: &[Row], state: u32) -> bool
    ensures value { result ≡ covered rows.now state }
    ensures judges { Judges rows.now state result }
{
    first_covering(rows, &state).is_some()
}

// Whether some exception covers the pair.
#[tactic(auto, using(roll::proofs::First::any_first))]
pub fn is_excepted(exceptions: &[Exception], pair: Pair) -> bool
    ensures { result ≡ excepted exceptions.now pair.state pair.event }
{
    first_covering(exceptions, &pair).is_some()
}

// The event of the first row that covers the state. Raised from there on, such events force a bad step.
pub fn forcing_event(rows: &[Row], state: u32) -> Option<u32>
    ensures value { result ≡ forcing rows.now state }
    ensures forces { Forces rows.now state result }
{
    let place = first_covering(rows, &state)?;
    Some(rows[place].event)
}
