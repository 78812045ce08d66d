// Why a file is refused, and why a model is not written.

ghost use Rattle.std.specs.Prelude.{◌≡◌, Some};
ghost use Rattle.aiger.specs.Faults.{refusal_of, write_number, read_reason, write_reason};

use std::fmt;

// A case that a line can bring has that line's number.
#[derive(Clone, Copy, PartialEq, Eq, Debug)]
pub enum ReadFault {
    FileTooLong,
    BadHeader,
    BadSizes,
    ShortTable,
    Malformed(u32),
    BadLiteral(u32),
    DefinedTwice(u32),
    Undefined(u32),
    BadSymbol(u32),
    SideTooLarge,
}

impl ReadFault {
    // Numbers as others read them; a cast of discriminants is no plainer.
    pub fn number(self) -> u8
        ensures { result ≡ (refusal_of self).number }
    {
        match self {
            ReadFault::FileTooLong => 1,
            ReadFault::BadHeader => 2,
            ReadFault::BadSizes => 3,
            ReadFault::ShortTable => 4,
            ReadFault::Malformed(_) => 5,
            ReadFault::BadLiteral(_) => 6,
            ReadFault::DefinedTwice(_) => 7,
            ReadFault::Undefined(_) => 8,
            ReadFault::BadSymbol(_) => 9,
            ReadFault::SideTooLarge => 10,
        }
    }

    pub fn line(self) -> u32
        ensures { result ≡ (refusal_of self).line }
    {
        match self {
            ReadFault::FileTooLong => 0,
            ReadFault::BadHeader
            | ReadFault::BadSizes
            | ReadFault::ShortTable
            | ReadFault::SideTooLarge => 1,
            ReadFault::Malformed(line)
            | ReadFault::BadLiteral(line)
            | ReadFault::DefinedTwice(line)
            | ReadFault::Undefined(line)
            | ReadFault::BadSymbol(line) => line,
        }
    }

    fn reason(self) -> &'static str
        ensures { result.now ≡ read_reason self }
    {
        match self {
            ReadFault::FileTooLong => "the file has more than 65,536 bytes",
            ReadFault::BadHeader => "the header is not 'aag M I L O A' with five numbers",
            ReadFault::BadSizes =>
                "a number of the header is over its limit, or there are too few variables",
            ReadFault::ShortTable => "the gate table has fewer places than the file has gates",
            ReadFault::Malformed(_) => "the line is malformed or absent",
            ReadFault::BadLiteral(_) => "a literal is too large, or the one defined is odd or 0",
            ReadFault::DefinedTwice(_) => "the literal is defined twice",
            ReadFault::Undefined(_) => "an operand is not defined",
            ReadFault::BadSymbol(_) => "the symbol is malformed, out of range or named twice",
            ReadFault::SideTooLarge => "more than 12 inputs are on one side",
        }
    }
}

// By hand, since a derived text is promised nowhere.
impl fmt::Display for ReadFault {
    ghost output = { λ f. Some (read_reason f) };

    fn fmt<W: fmt::Write>(&self, f: &mut fmt::Formatter<W>) -> fmt::Result {
        f.write_str(self.reason())
    }
}

#[derive(Clone, Copy, PartialEq, Eq, Debug)]
pub enum WriteFault {
    BufferShort,
}

impl WriteFault {
    // Numbers as others read them; a cast of discriminants is no plainer.
    pub fn number(self) -> u8
        ensures { result ≡ write_number self }
    {
        match self {
            WriteFault::BufferShort => 11,
        }
    }

    fn reason(self) -> &'static str
        ensures { result.now ≡ write_reason self }
    {
        match self {
            WriteFault::BufferShort => "the buffer is shorter than the model's text",
        }
    }
}

// By hand, since a derived text is promised nowhere.
impl fmt::Display for WriteFault {
    ghost output = { λ f. Some (write_reason f) };

    fn fmt<W: fmt::Write>(&self, f: &mut fmt::Formatter<W>) -> fmt::Result {
        f.write_str(self.reason())
    }
}
