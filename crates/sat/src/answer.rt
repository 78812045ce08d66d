// A solver's answer.

ghost use Rattle.std.specs.Prelude.{◌≡◌, Some};
ghost use Rattle.sat.specs.Answers.{answer_number};
ghost use Rattle.sat.specs.Texts.{answer_text};

use std::fmt;

// Whether some values satisfy every clause and make every assumption true.
#[derive(Clone, Copy, PartialEq, Eq, Debug)]
pub enum Answer {
    Yes,
    No,
}

impl Answer {
    // Numbers as others read them; a cast of discriminants is no plainer.
    pub fn number(self) -> u8
        ensures { result ≡ answer_number self }
    {
        match self {
            Answer::No => 0,
            Answer::Yes => 1,
        }
    }
}

// By hand, since a derived text is promised nowhere.
impl fmt::Display for Answer {
    ghost output = { λ a. Some (answer_text a) };

    fn fmt<W: fmt::Write>(&self, f: &mut fmt::Formatter<W>) -> fmt::Result {
        match self {
            Answer::Yes => f.write_str("yes"),
            Answer::No => f.write_str("no"),
        }
    }
}
