// What a model is made of.

ghost use Rattle.std.specs.Prelude.{◌≡◌};
ghost use Rattle.circuit.specs.Parts.{blank_gate, blank_input, blank_latch, blank_record};

use literal::Literal;

pub const MAX_VARIABLE: u16 = 4096;

pub const MAX_INPUTS: usize = 24;

pub const MAX_SIDE: usize = 12;

pub const MAX_LATCHES: usize = 32;

pub const MAX_GATES: usize = 2048;

// An AND gate: the output is true where both operands are.
#[derive(Clone, Copy, PartialEq, Eq, Debug)]
pub struct Gate {
    pub output: Literal,
    pub left: Literal,
    pub right: Literal,
}

// Who sets an input: a plug-in by its event, or the host by its answer.
#[derive(Clone, Copy, PartialEq, Eq, Debug)]
pub enum Side {
    Event,
    Answer,
}

#[derive(Clone, Copy, PartialEq, Eq, Debug)]
pub struct Input {
    pub literal: Literal,
    pub side: Side,
}

// A latch, and the literal whose truth it takes over at a step.
#[derive(Clone, Copy, PartialEq, Eq, Debug)]
pub struct Latch {
    pub literal: Literal,
    pub next: Literal,
}

// All of a model but its gates. Inputs and latches stand in file order; places past the counts are blank.
// Arrays with a count beside them, and no Vec: a record is lent by the caller, and takes no heap.
#[derive(Clone, Copy, PartialEq, Eq, Debug)]
pub struct Record {
    pub maximum: u16,
    pub inputs: [Input; MAX_INPUTS],
    pub input_count: usize,
    pub latches: [Latch; MAX_LATCHES],
    pub latch_count: usize,
    pub output: Literal,
    pub gate_count: usize,
}

// Blank parts are constants, and no Default: an array literal repeats a constant.
impl Gate {
    pub const BLANK: Gate = Gate {
        output: Literal::FALSE,
        left: Literal::FALSE,
        right: Literal::FALSE,
    };
}

impl Input {
    pub const BLANK: Input = Input {
        literal: Literal::FALSE,
        side: Side::Event,
    };
}

impl Latch {
    pub const BLANK: Latch = Latch {
        literal: Literal::FALSE,
        next: Literal::FALSE,
    };
}

impl Record {
    // A record of zeros. A function, and no Default: its contract says what a blank record is.
    pub fn blank() -> Record
        ensures { result ≡ blank_record }
    {
        Record {
            maximum: 0,
            inputs: [Input::BLANK; MAX_INPUTS],
            input_count: 0,
            latches: [Latch::BLANK; MAX_LATCHES],
            latch_count: 0,
            output: Literal::FALSE,
            gate_count: 0,
        }
    }
}
