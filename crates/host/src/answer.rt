// One call on a session.

ghost use Rattle.std.specs.Prelude.{◌≡◌};
ghost use Rattle.region.specs.Parts.{arena_in, rows_in};
ghost use Rattle.host.specs.Answers.{stage_of, Answers};
ghost use Rattle.host.specs.declared.answer.Session.TheVariants as stage;

use crate::exchange::{Call, Reply};
use region::Region;
use session::{Raised, Refusal, Waiting};

// A session that waits, or has an event raised.
#[derive(Drop)]
pub enum Session {
    Waiting(Waiting),
    Raised(Raised),
}

// By hand, since a derived conversion does not promise what it gives. So is the next.
impl From<Waiting> for Session {
    ghost from_gives = { λ w s. s ≡ stage.Waiting w };

    fn from(waiting: Waiting) -> Session {
        Session::Waiting(waiting)
    }
}

impl From<Raised> for Session {
    ghost from_gives = { λ r s. s ≡ stage.Raised r };

    fn from(raised: Raised) -> Session {
        Session::Raised(raised)
    }
}

impl Session {
    // Makes the call, where the session allows it; otherwise the session stays as it is.
    pub fn answer(self, region: &Region<'_>, call: Call) -> (Session, Reply)
        ensures { Answers (arena_in region.now) (rows_in region.now) (stage_of self) call result.1 (stage_of result.0) }
    {
        match (self, call) {
            (Session::Waiting(waiting), Call::Raise(event)) => {
                waiting.raise(region, event).map_or_else(refused, |raised| {
                    let reply = Reply::Raised(raised.state());
                    (raised.into(), reply)
                })
            }
            (Session::Waiting(waiting), Call::Reset) => waiting
                .reset(region)
                .map_or_else(refused, |waiting| (waiting.into(), Reply::Restarted)),
            (Session::Raised(raised), Call::Settle(wish)) => {
                raised.settle(region, wish).map_or_else(refused, |settled| {
                    let next = settled.session.state();
                    let reply = if settled.replaced {
                        Reply::Replaced(settled.answer, next)
                    } else {
                        Reply::Used(next)
                    };
                    (settled.session.into(), reply)
                })
            }
            (session, _) => (session, Reply::NotAllowed),
        }
    }
}

// A refused call gives its session back.
fn refused<S: Into<Session>>(refusal: Refusal<S>) -> (Session, Reply)
    ensures session { S.converts refusal.session result.0 }
    ensures reply { result.1 ≡ Reply.Refused refusal.fault }
{
    (refusal.session.into(), Reply::Refused(refusal.fault))
}
