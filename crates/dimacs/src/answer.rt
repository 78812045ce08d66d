// What is printed.

ghost use Rattle.std.specs.Prelude.{Some};
ghost use Rattle.dimacs.specs.Verdicts.{reason};

use dimacs_text::DimacsFault;
use sat::SolverFault;
use std::alloc::{AllocError, Global};
use std::fmt;

// The literals on a line.
const WIDTH: usize = 16;

// The literals that values make true, on `v` lines, with 0 after the last.
pub fn values_text(heap: Global, values: &[u8]) -> Result<String, AllocError> {
    let mut text = String::from_str(heap, "v")?;
    // The place is the variable, which is printed.
    for (variable, value) in values.iter().enumerate().skip(1) {
        if variable > 1 && variable % WIDTH == 1 {
            text.push_str("\nv")?;
        }
        let sign = if *value == 1 { "" } else { "-" };
        let literal = format!(in heap; " {sign}{variable}")?;
        text.push_str(&literal)?;
    }
    text.push_str(" 0")?;
    Ok(text)
}

// Why a text was refused, in the words of the text rather than of the solver.
#[derive(Drop)]
pub struct Reason(pub DimacsFault);

// By hand, since a derived text is promised nowhere.
impl fmt::Display for Reason {
    ghost output = { λ r. Some (reason r.0) };

    fn fmt<W: fmt::Write>(&self, f: &mut fmt::Formatter<W>) -> fmt::Result {
        match self.0 {
            DimacsFault::Refused(SolverFault::SizeUnfit) => f.write_str(
                "there are more than 8,192 variables",
            ),
            DimacsFault::Refused(SolverFault::VariableOutOfRange) => f.write_str(
                "a literal's variable is larger than the header says",
            ),
            DimacsFault::Refused(SolverFault::TooManyLiterals) => f.write_str(
                "a clause has more than 64 literals",
            ),
            fault => fault.fmt(f),
        }
    }
}
