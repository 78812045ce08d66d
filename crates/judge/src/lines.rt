// The lines that a verdict is printed in.

ghost use Rattle.std.specs.Prelude.{Some};
ghost use Rattle.judge.specs.Lines.{verdict_line, row_line};

use game::Row;
use std::fmt;
use synthesis::Verdict;

// A verdict and its number of rows.
#[derive(Clone, Copy, PartialEq, Eq, Debug)]
pub struct VerdictLine {
    pub verdict: Verdict,
    pub rows: usize,
}

// A row and its place.
#[derive(Clone, Copy, PartialEq, Eq, Debug)]
pub struct RowLine {
    pub place: usize,
    pub row: Row,
}

// By hand, since a derived text is promised nowhere.
impl fmt::Display for VerdictLine {
    ghost output = { λ l. Some (verdict_line l) };

    fn fmt<W: fmt::Write>(&self, f: &mut fmt::Formatter<W>) -> fmt::Result {
        let VerdictLine { verdict, rows } = self;
        write!(f, "{verdict} {rows}")
    }
}

// By hand, since a derived text is promised nowhere.
impl fmt::Display for RowLine {
    ghost output = { λ l. Some (row_line l) };

    fn fmt<W: fmt::Write>(&self, f: &mut fmt::Formatter<W>) -> fmt::Result {
        let RowLine { place, row } = self;
        let Row { care, value, event } = row;
        write!(f, "row {place} care {care} value {value} event {event}")
    }
}
