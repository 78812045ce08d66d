// The calls on a session. Each takes the region; only a foreign one is refused for it.

ghost use Rattle.std.specs.Prelude.{◌≡◌, ◌<◌, true};
ghost use Rattle.region.specs.Parts.{arena_in, rows_in};
ghost use Rattle.session.specs.Laws.{Law};
ghost use Rattle.session.specs.Sessions.{waiting, raising, settling, resetting, Gives, at_home};
ghost use Rattle.session.specs.Views.{waiting_stage, raised_stage, raise_reply, raise_stage, reset_reply, reset_stage, settle_reply, settle_stage};
ghost use Rattle.session.specs.Outcomes.{checked_of, JudgedAs};

use crate::fault::SessionFault;
use crate::stage::{Raised, Refusal, Settled, Waiting};
use crate::staged::Staged;
use region::Region;

const AT_RESET: Waiting = Waiting { state: 0 };

// A waiting session at reset.
pub fn open(region: &Region<'_>) -> Waiting
    ensures value { waiting_stage result ≡ waiting 0 }
    ensures law { Law (arena_in region.now) (rows_in region.now) }
{
    AT_RESET
}

impl Waiting {
    // A plug-in raises an event.
    #[tactic(auto, using(crate::proofs::Giving::raise_gives))]
    pub fn raise(self, region: &Region<'_>, event: u32) -> Result<Raised, Refusal<Waiting>>
        ensures { Gives (arena_in region.now) (rows_in region.now) (waiting_stage self) (raising event) (raise_reply result) (raise_stage result) }
    {
        checked(self, region, event < region.events()).map(|waiting| Raised {
            state: waiting.state,
            event,
        })
    }

    // The host starts again from reset.
    #[tactic(auto, using(crate::proofs::Giving::reset_gives))]
    pub fn reset(self, region: &Region<'_>) -> Result<Waiting, Refusal<Waiting>>
        ensures { Gives (arena_in region.now) (rows_in region.now) (waiting_stage self) resetting (reset_reply result) (reset_stage result) }
    {
        checked(self, region, true).map(|_| AT_RESET)
    }
}

impl Raised {
    // The host shows the answer that it wishes to give. It is used if its step is not bad and ends uncovered, otherwise the lowest such
    // answer replaces it.
    #[tactic(auto, using(crate::proofs::Giving::settle_gives))]
    pub fn settle(self, region: &Region<'_>, wish: u32) -> Result<Settled, Refusal<Raised>>
        ensures { Gives (arena_in region.now) (rows_in region.now) (raised_stage self) (settling wish) (settle_reply result) (settle_stage result) }
    {
        let raised = checked(self, region, wish < region.answers())?;
        Ok(raised.judged(region, wish))
    }

    // The answer to give on the session's own region, and the session after it.
    fn judged(self, region: &Region<'_>, wish: u32) -> Settled
        requires home { at_home (arena_in region.now) (rows_in region.now) (raised_stage self) ≡ true }
        requires within { wish < (arena_in region.now).answers }
        ensures { JudgedAs (arena_in region.now) (rows_in region.now) self wish result }
    {
        if let Some(next) = region.passes(self.state, self.event, wish) {
            return Settled {
                answer: wish,
                replaced: false,
                session: Waiting { state: next },
            };
        }
        // At an uncovered state some answer passes, whatever the event.
        let lowest = region.lowest_passing(self.state, self.event).unwrap();
        Settled {
            answer: lowest.answer,
            replaced: true,
            session: Waiting { state: lowest.next },
        }
    }
}

// The session itself, where the region is its own and the call's number is in range; otherwise the call's refusal.
fn checked<S: Staged>(session: S, region: &Region<'_>, in_range: bool) -> Result<S, Refusal<S>>
    ensures { result ≡ checked_of (arena_in region.now) (rows_in region.now) (S.stage session) session in_range }
{
    let fault = match (session.is_home(region), in_range) {
        (true, true) => return Ok(session),
        (true, false) => SessionFault::OutOfRange,
        (false, _) => SessionFault::Foreign,
    };
    Err(Refusal { session, fault })
}
