// What a line of a script brings.

ghost use Rattle.std.specs.Prelude.{◌≡◌, Some, Ok, Err};
ghost use Rattle.simulate.specs.declared.reply.NoStep.TheVariants.{Refused};
ghost use Rattle.simulate.specs.Reply.{reply_of, state_after, shown_of};

use circuit::{Model, StepFault};
use script::{Asked, read_line};
use std::fmt;

// From a state, by what the line asks for, to whether the step is bad and the next state.
#[derive(Clone, Copy, PartialEq, Eq, Debug)]
pub struct Stepped {
    pub state: u32,
    pub asked: Asked,
    pub bad: bool,
    pub next: u32,
}

// Why a line makes no step.
#[derive(Clone, Copy, PartialEq, Eq, Debug)]
pub enum NoStep {
    Refused(StepFault),
    // The line of that number is not two numbers.
    Unread(u64),
}

// By hand, since a derived conversion does not promise what it gives.
impl From<StepFault> for NoStep {
    ghost from_gives = { λ f r. r ≡ Refused f };

    fn from(refusal: StepFault) -> NoStep {
        NoStep::Refused(refusal)
    }
}

pub type Reply = Result<Stepped, NoStep>;

// The reply to line `at` in a state.
pub fn reply_to(model: &Model, state: u32, at: u64, line: &[u8]) -> Reply
    ensures { result ≡ reply_of model.now.«record».now model.now.gates.now state at line.now }
{
    let asked = read_line(line).ok_or(NoStep::Unread(at))?;
    let (bad, next) = model.step(state, asked.event, asked.answer)?;
    Ok(Stepped {
        state,
        asked,
        bad,
        next,
    })
}

// A step leads to its next state; else the state stays.
pub fn state_after(reply: Reply, state: u32) -> u32
    ensures { result ≡ state_after reply state }
{
    reply.map_or(state, |step| step.next)
}

// By hand, since a derived text is promised nowhere.
impl fmt::Display for Stepped {
    ghost output = { λ x. Some (shown_of (Ok x)) };

    fn fmt<W: fmt::Write>(&self, f: &mut fmt::Formatter<W>) -> fmt::Result {
        let Asked { event, answer } = self.asked;
        let state = self.state;
        let next = self.next;
        let verdict = if self.bad { "bad" } else { "ok" };
        write!(
            f,
            "state {state} event {event} answer {answer}: {verdict}, next {next}"
        )
    }
}

// By hand, since a derived text is promised nowhere.
impl fmt::Display for NoStep {
    ghost output = { λ x. Some (shown_of (Err x)) };

    fn fmt<W: fmt::Write>(&self, f: &mut fmt::Formatter<W>) -> fmt::Result {
        match self {
            NoStep::Refused(fault) => {
                let number = fault.number();
                write!(f, "refused {number}: {fault}")
            }
            NoStep::Unread(at) => write!(f, "line {at}: not two numbers"),
        }
    }
}
