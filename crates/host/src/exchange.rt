// What a host asks of its session, and what comes back.

ghost use Rattle.std.specs.Prelude.{◌≡◌};

use session::SessionFault;

#[derive(Clone, Copy, PartialEq, Eq, Debug)]
pub enum Call {
    // A plug-in raises the event.
    Raise(u32),
    // The host wishes to answer so.
    Settle(u32),
    Reset,
}

#[derive(Clone, Copy, PartialEq, Eq, Debug)]
pub enum Reply {
    // The event is raised, in that state.
    Raised(u32),
    // The wish is used, and leads to that state.
    Used(u32),
    // An answer replaces the wish, and leads to a state.
    Replaced(u32, u32),
    // The session is at reset.
    Restarted,
    Refused(SessionFault),
    // The session does not allow the call where it is: a waiting session allows raise and reset, a raised one settle.
    NotAllowed,
}

// A call with its reply, or none where nobody has replied yet.
#[derive(Clone, Copy, PartialEq, Eq, Debug)]
pub struct Exchange {
    pub call: Call,
    pub reply: Option<Reply>,
}

impl Exchange {
    // A call that nobody has replied to.
    pub fn new(call: Call) -> Exchange
        ensures asked { result.call ≡ call }
        ensures unserved { result.reply ≡ None }
    {
        Exchange { call, reply: None }
    }
}
