// The reader's state: the part of the file reached, and what its lines gave so far.

ghost use Rattle.std.specs.Prelude.{◌≡◌, ◌+◌, ◌<◌, ◌≤◌, List, length, codes, OnOk};
ghost use Rattle.circuit.specs.Sound.{answer_count, event_count};
ghost use Rattle.circuit.specs.Parts.{inputs_of};
ghost use Rattle.aiger.specs.Line.{begins, content_of};
ghost use Rattle.aiger.specs.Advance.{after, both, over, after, known_to, fresh_on, leave_inputs, leave_latches, leave_gates, input_on, latch_on, close_on, output_on, gate_on, symbol_on, advance, end_on, sides_on, state_of, start_of, Fits};

use crate::fault::ReadFault;
use crate::line::{Header, Line, SymbolKind};
use circuit::record::{MAX_INPUTS, MAX_LATCHES, MAX_SIDE};
use circuit::{Gate, Input, Latch, Record, Side, on_side};
use literal::Literal;

// The constant and the largest variables.
pub const VARIABLES: usize = 4097;

#[derive(Clone, Copy, PartialEq, Eq, Debug)]
pub enum Section {
    Inputs,
    Latches,
    Output,
    Gates,
    Symbols,
    Comment,
}

// Which inputs, latches and outputs a symbol has named: flags by position, since there is no heap.
#[derive(Clone, Copy, PartialEq, Eq, Debug)]
pub struct Names {
    pub inputs: [bool; MAX_INPUTS],
    pub latches: [bool; MAX_LATCHES],
    pub output: bool,
}

#[derive(Drop)]
pub struct Reader {
    pub section: Section,
    // how many lines of the section are read
    pub place: usize,
    pub model: Record,
    pub defined: [bool; VARIABLES],
    pub names: Names,
}

// An input with such a name is set by the host.
fn is_controllable(name: &[u8]) -> bool
    ensures { result ≡ begins (codes "controllable_") name.now }
{
    name.starts_with(b"controllable_")
}

impl Reader {
    // A reader after the header.
    #[tactic(auto, unfolding(crate::specs::Advance::start_of))]
    pub(crate) fn new(header: Header) -> Reader
        ensures { result ≡ start_of header }
    {
        let mut model = Record::blank();
        model.maximum = header.maximum;
        model.input_count = usize::from(header.inputs);
        model.latch_count = usize::from(header.latches);
        model.gate_count = usize::from(header.gates);
        let mut defined = [false; VARIABLES];
        defined[0] = true;
        let names = Names {
            inputs: [false; MAX_INPUTS],
            latches: [false; MAX_LATCHES],
            output: false,
        };
        let mut reader = Reader {
            section: Section::Inputs,
            place: 0,
            model,
            defined,
            names,
        };
        reader.leave_inputs();
        reader
    }

    fn knows(&self, literal: Literal) -> bool
        ensures { result ≡ known_to self.now literal }
    {
        self.defined
            .get(literal.variable())
            .copied()
            .unwrap_or(false)
    }

    // Goes on to the latches where all inputs are read.
    #[tactic(auto, unfolding(crate::specs::Advance::leave_inputs))]
    fn leave_inputs(&mut self)
        ensures value { self.new ≡ leave_inputs self.old }
        ensures model { self.new.model ≡ self.old.model }
    {
        if self.place == self.model.input_count {
            self.section = Section::Latches;
            self.place = 0;
            self.leave_latches();
        }
    }

    // Goes on to the output where all latches are read.
    #[tactic(auto, unfolding(crate::specs::Advance::leave_latches))]
    fn leave_latches(&mut self)
        ensures value { self.new ≡ leave_latches self.old }
        ensures model { self.new.model ≡ self.old.model }
    {
        if self.place == self.model.latch_count {
            self.section = Section::Output;
            self.place = 0;
        }
    }
}

// A reader whose model has the sizes that a header may give. A struct of its own, since the definitions build readers of any sizes.
#[derive(Drop)]
pub struct Reading {
    pub state: Reader,
    ghost maximum: { state.model.maximum ≤ 4096 },
    ghost inputs: { state.model.input_count ≤ 24 },
    ghost latches: { state.model.latch_count ≤ 32 },
}

impl Reading {
    // A literal past the largest variable.
    fn over(&self, literal: Literal) -> bool
        ensures { result ≡ over self.now.state literal }
    {
        literal.code > 2 * self.state.model.maximum + 1
    }

    // Refuses a literal that line `at` may not define.
    #[tactic(auto, unfolding(crate::specs::Advance::fresh_on))]
    fn check_fresh(&self, at: u32, literal: Literal) -> Result<(), ReadFault>
        ensures value { result ≡ fresh_on at literal self.now.state }
        ensures bound { OnOk result (literal.code ≤ 8193) }
    {
        if self.over(literal) || literal.is_negated() || literal.code == 0 {
            return Err(ReadFault::BadLiteral(at));
        }
        if self.state.knows(literal) {
            return Err(ReadFault::DefinedTwice(at));
        }
        Ok(())
    }

    // Goes on to the symbols where all gates are read; by then every next literal and the output have to be defined.
    #[tactic(auto, unfolding(crate::specs::Advance::leave_gates))]
    fn leave_gates(&mut self) -> Result<(), ReadFault>
        ensures { after result self.new.state ≡ leave_gates self.old.state }
    {
        if self.state.place == self.state.model.gate_count {
            self.check_operands()?;
            self.state.section = Section::Symbols;
            self.state.place = 0;
        }
        Ok(())
    }

    // Refuses a next literal or an output that no line has defined.
    #[tactic(auto, unfolding(crate::specs::Advance::close_on))]
    fn check_operands(&self) -> Result<(), ReadFault>
        ensures { result ≡ close_on self.now.state }
    {
        let first = self.state.model.input_count as u32 + 2;
        let latches = &self.state.model.latches[..self.state.model.latch_count];
        for (j, latch) in latches.iter().enumerate() {
            if !self.state.knows(latch.next) {
                return Err(ReadFault::Undefined(first + j as u32));
            }
        }
        if !self.state.knows(self.state.model.output) {
            return Err(ReadFault::Undefined(first + latches.len() as u32));
        }
        Ok(())
    }

    #[tactic(auto, unfolding(crate::specs::Advance::input_on))]
    fn input(&mut self, at: u32, literal: Literal) -> Result<(), ReadFault>
        requires { self.old.state.place < 24 }
        ensures { after result self.new.state ≡ input_on at literal self.old.state }
    {
        self.check_fresh(at, literal)?;
        self.state.defined[literal.variable()] = true;
        self.state.model.inputs[self.state.place] = Input {
            literal,
            side: Side::Event,
        };
        self.state.place += 1;
        self.state.leave_inputs();
        Ok(())
    }

    #[tactic(auto, unfolding(crate::specs::Advance::latch_on))]
    fn latch(&mut self, at: u32, latch: Latch) -> Result<(), ReadFault>
        requires { self.old.state.place < 32 }
        ensures { after result self.new.state ≡ latch_on at latch self.old.state }
    {
        if self.over(latch.next) {
            return Err(ReadFault::BadLiteral(at));
        }
        self.check_fresh(at, latch.literal)?;
        self.state.defined[latch.literal.variable()] = true;
        self.state.model.latches[self.state.place] = latch;
        self.state.place += 1;
        self.state.leave_latches();
        Ok(())
    }

    #[tactic(auto, unfolding(crate::specs::Advance::output_on))]
    fn output(&mut self, at: u32, literal: Literal) -> Result<(), ReadFault>
        ensures { after result self.new.state ≡ output_on at literal self.old.state }
    {
        if self.over(literal) {
            return Err(ReadFault::BadLiteral(at));
        }
        self.state.model.output = literal;
        self.state.section = Section::Gates;
        self.state.place = 0;
        self.leave_gates()
    }

    // The gate table stays beside the reader: a struct of both would have to promise that it is the same table.
    #[tactic(auto, unfolding(crate::specs::Advance::gate_on))]
    fn gate(&mut self, gates: &mut [Gate], at: u32, gate: Gate) -> Result<(), ReadFault>
        requires { self.old.state.place < length gates.old }
        ensures { both result self.new.state gates.new ≡ gate_on at gate (state_of self.old.state gates.old) }
    {
        if self.over(gate.left) || self.over(gate.right) {
            return Err(ReadFault::BadLiteral(at));
        }
        self.check_fresh(at, gate.output)?;
        if !self.state.knows(gate.left) || !self.state.knows(gate.right) {
            return Err(ReadFault::Undefined(at));
        }
        self.state.defined[gate.output.variable()] = true;
        gates[self.state.place] = gate;
        self.state.place += 1;
        self.leave_gates()
    }

    // An arm for each kind: with one `&mut` to the name's place, picked by the kind, the proof does not close.
    #[tactic(auto, unfolding(crate::specs::Advance::symbol_on))]
    fn symbol(
        &mut self,
        at: u32,
        kind: SymbolKind,
        position: usize,
        name: &[u8],
    ) -> Result<(), ReadFault>
        ensures { after result self.new.state ≡ symbol_on at kind position name.now self.old.state }
    {
        match kind {
            SymbolKind::Input => {
                if position >= self.state.model.input_count || self.state.names.inputs[position] {
                    return Err(ReadFault::BadSymbol(at));
                }
                self.state.names.inputs[position] = true;
                if is_controllable(name) {
                    self.state.model.inputs[position].side = Side::Answer;
                }
            }
            SymbolKind::Latch => {
                if position >= self.state.model.latch_count || self.state.names.latches[position] {
                    return Err(ReadFault::BadSymbol(at));
                }
                self.state.names.latches[position] = true;
            }
            SymbolKind::Output => {
                if position != 0 || self.state.names.output {
                    return Err(ReadFault::BadSymbol(at));
                }
                self.state.names.output = true;
            }
        }
        Ok(())
    }

    // Takes line `at` of the file: what it means depends on the section reached. One match of both, by a rule of the project.
    #[tactic(auto, unfolding(crate::specs::Advance::advance))]
    pub(crate) fn take(&mut self, gates: &mut [Gate], at: u32, line: Line) -> Result<(), ReadFault>
        requires { Fits self.old.state (length gates.old) }
        ensures { both result self.new.state gates.new ≡ advance at (content_of line.entry) (state_of self.old.state gates.old) }
    {
        match (self.state.section, line) {
            (Section::Inputs, Line::One(a)) => self.input(at, Literal { code: a }),
            (Section::Latches, Line::Two(a, b)) => {
                self.latch(
                    at,
                    Latch {
                        literal: Literal { code: a },
                        next: Literal { code: b },
                    },
                )
            }
            (Section::Output, Line::One(a)) => self.output(at, Literal { code: a }),
            (Section::Gates, Line::Three(a, b, c)) => {
                let gate = Gate {
                    output: Literal { code: a },
                    left: Literal { code: b },
                    right: Literal { code: c },
                };
                self.gate(gates, at, gate)
            }
            (Section::Symbols, Line::Symbol(kind, position, name)) => self.symbol(
                at,
                kind,
                usize::from(position),
                name,
            ),
            (Section::Symbols, Line::Comment) => {
                self.state.section = Section::Comment;
                Ok(())
            }
            (Section::Symbols, _) => Err(ReadFault::BadSymbol(at)),
            (Section::Comment, _) => Ok(()),
            (_, _) => Err(ReadFault::Malformed(at)),
        }
    }

    // Ends the file where line `at` would stand.
    #[tactic(auto, unfolding(crate::specs::Advance::end_on))]
    pub(crate) fn end(&self, at: u32) -> Result<(), ReadFault>
        ensures { result ≡ end_on at self.now.state }
    {
        match self.state.section {
            Section::Symbols | Section::Comment => self.check_sides(),
            _ => Err(ReadFault::Malformed(at)),
        }
    }

    fn check_sides(&self) -> Result<(), ReadFault>
        ensures { result ≡ sides_on self.now.state.model }
    {
        let inputs = &self.state.model.inputs[..self.state.model.input_count];
        if on_side(inputs, Side::Event) <= MAX_SIDE && on_side(inputs, Side::Answer) <= MAX_SIDE {
            Ok(())
        } else {
            Err(ReadFault::SideTooLarge)
        }
    }
}
