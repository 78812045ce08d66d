// What a run says of the host.

ghost use Rattle.std.specs.Prelude.{◌≡◌, Some};
ghost use Rattle.synthesis.specs.Faults.{verdict_number, verdict_text};

use std::fmt;

// Whether the host can keep its rules for ever from reset.
#[derive(Clone, Copy, PartialEq, Eq, Debug)]
pub enum Verdict {
    Kept,
    Lost,
}

impl Verdict {
    // Numbers as others read them; a cast of discriminants is no plainer.
    pub fn number(self) -> u8
        ensures { result ≡ verdict_number self }
    {
        match self {
            Verdict::Lost => 0,
            Verdict::Kept => 1,
        }
    }
}

// By hand, since a derived text is promised nowhere.
impl fmt::Display for Verdict {
    ghost output = { λ v. Some (verdict_text v) };

    fn fmt<W: fmt::Write>(&self, f: &mut fmt::Formatter<W>) -> fmt::Result {
        match self {
            Verdict::Kept => f.write_str("kept"),
            Verdict::Lost => f.write_str("lost"),
        }
    }
}
