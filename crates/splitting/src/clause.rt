// How a clause stands under a table of values.

ghost use Rattle.std.specs.Prelude.{◌≡◌, length};
ghost use Rattle.splitting.specs.Cells.{InTable};
ghost use Rattle.splitting.specs.States.{Standing, Joined};

use crate::trail::Trail;

// How a clause stands.
#[derive(Clone, Copy)]
pub enum State {
    // A literal is true.
    Satisfied,
    // This one literal has no value, and every other is false.
    Forces(u32),
    // Every literal is false.
    Conflict,
    // No literal is true, and two have no value, of which this is the first.
    Open(u32),
}

impl State {
    // How a clause stands with one more literal, which has no value.
    fn with_unset(self, literal: u32) -> State
        ensures { result ≡ Joined self literal }
    {
        match self {
            State::Satisfied => State::Satisfied,
            State::Conflict => State::Forces(literal),
            State::Forces(first) => State::Open(first),
            State::Open(first) => State::Open(first),
        }
    }
}

impl<'a> Trail<'a> {
    // How a clause stands under the values that the trail gives.
    pub fn state(&self, clause: &[u32]) -> State
        requires { InTable clause.now (length self.now.value.now) }
        ensures { Standing result clause.now self.now.value.now (length clause.now) }
    {
        let mut state = State::Conflict;
        for literal in clause {
            if self.is_true(*literal) {
                return State::Satisfied;
            }
            if self.is_unset(*literal) {
                state = state.with_unset(*literal);
            }
        }
        state
    }
}
