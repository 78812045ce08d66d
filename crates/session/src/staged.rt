// What both stages of a session can be asked.

ghost use Rattle.std.specs.Prelude.{◌≡◌};
ghost use Rattle.region.specs.Exact.{outside};
ghost use Rattle.region.specs.Parts.{arena_in, rows_in};
ghost use Rattle.session.specs.Sessions.{Stage, state_of, at_home};
ghost use Rattle.session.specs.Views.{waiting_stage, raised_stage};

use crate::stage::{Raised, Waiting};
use region::Region;

pub trait Staged {
    // The stage in the words of the law.
    ghost stage: { Self → Stage };

    // The state at which the session waits, or in which its event was raised.
    fn state(&self) -> u32
        ensures { result ≡ state_of (stage self.now) };

    // Whether the state is one of the region's and uncovered, and an event that is raised is one of its events.
    fn is_home(&self, region: &Region<'_>) -> bool
        ensures { result ≡ at_home (arena_in region.now) (rows_in region.now) (stage self.now) };
}

impl Staged for Waiting {
    ghost stage = { waiting_stage };

    fn state(&self) -> u32 {
        Waiting::state(self)
    }

    fn is_home(&self, region: &Region<'_>) -> bool {
        is_uncovered(region, self.state)
    }
}

impl Staged for Raised {
    ghost stage = { raised_stage };

    fn state(&self) -> u32 {
        Raised::state(self)
    }

    fn is_home(&self, region: &Region<'_>) -> bool {
        is_uncovered(region, self.state) && self.event < region.events()
    }
}

// Whether the state is one of the region's, and no row covers it.
fn is_uncovered(region: &Region<'_>, state: u32) -> bool
    ensures { result ≡ outside (arena_in region.now) (rows_in region.now) state }
{
    u64::from(state) < region.states() && !region.covers(state)
}
