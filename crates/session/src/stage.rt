// The two stages of a session, and what its calls return. A session is moved on by each call, never copied: whoever has passed one on
// goes on with the one that was returned.

ghost use Rattle.std.specs.Prelude.{◌≡◌};

use crate::fault::SessionFault;

// No event is raised: the session allows raise and reset.
#[derive(Drop, Debug)]
pub struct Waiting {
    pub(crate) state: u32,
}

impl Waiting {
    // The state at which the session waits.
    pub fn state(&self) -> u32
        ensures { result ≡ self.now.state }
    {
        let Waiting { state } = self;
        *state
    }
}

// An event is raised: the session allows settle alone.
#[derive(Drop, Debug)]
pub struct Raised {
    pub(crate) state: u32,
    pub(crate) event: u32,
}

impl Raised {
    // The state in which the event was raised.
    pub fn state(&self) -> u32
        ensures { result ≡ self.now.state }
    {
        self.state
    }

    pub fn event(&self) -> u32
        ensures { result ≡ self.now.event }
    {
        self.event
    }
}

// The answer to give, whether it replaces the wish, and the session after it. A flag, and no enum: the answer is given either way.
#[derive(Drop, Debug)]
pub struct Settled {
    pub answer: u32,
    pub replaced: bool,
    pub session: Waiting,
}

// A refused call gives the same session back.
#[derive(Drop, Debug)]
pub struct Refusal<S> {
    pub session: S,
    pub fault: SessionFault,
}
