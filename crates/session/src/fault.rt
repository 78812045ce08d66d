// Why a session refuses a call.

ghost use Rattle.std.specs.Prelude.{◌≡◌, Some};
ghost use Rattle.session.specs.Faults.{session_number, session_reason};

use std::fmt;

#[derive(Clone, Copy, PartialEq, Eq, Debug)]
pub enum SessionFault {
    // The region is not the session's own: there the state is covered or out of range, or the raised event is out of range.
    Foreign,
    // The event raised, or the answer wished for, is out of range.
    OutOfRange,
}

impl SessionFault {
    // The numbers as others read them; a cast of discriminants is no plainer.
    pub fn number(self) -> u8
        ensures { result ≡ session_number self }
    {
        match self {
            SessionFault::Foreign => 42,
            SessionFault::OutOfRange => 43,
        }
    }
}

// The reason in words, by hand since a derive promises nothing of them.
impl fmt::Display for SessionFault {
    ghost output = { λ f. Some (session_reason f) };

    fn fmt<W: fmt::Write>(&self, f: &mut fmt::Formatter<W>) -> fmt::Result {
        match self {
            SessionFault::Foreign => f.write_str("the session is another region's"),
            SessionFault::OutOfRange => f.write_str("the event or the wish is out of range"),
        }
    }
}
