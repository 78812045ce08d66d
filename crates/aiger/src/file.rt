// Reading a whole file.

ghost use Rattle.std.specs.Prelude.{◌≡◌, ◌≤◌, true, length, replicate, OnOk};
ghost use Rattle.circuit.specs.Parts.{blank_gate};
ghost use Rattle.circuit.specs.Sound.{sound};
ghost use Rattle.aiger.specs.Format.{ReadLaw};
ghost use Rattle.aiger.specs.Advance.{both, state_of, Fits, Bounds, model_of};
ghost use Rattle.aiger.specs.Read.{folded, lines_of, sized_of, filled, fill_of, answered, read_of};

use crate::fault::ReadFault;
use crate::line::{Header, Line, classify, read_header};
use crate::reader::{Reader, Reading};
use circuit::record::{MAX_GATES, MAX_INPUTS, MAX_LATCHES, MAX_VARIABLE};
use circuit::{Gate, Record};
use text::cut;

pub const MAX_FILE: usize = 65536;

// Reads a model from a file's bytes into a record and a gate table. A refusal leaves both all zeros. What is accepted can be
// joined to a model.
pub fn read(file: &[u8], gates: &mut [Gate], record: &mut Record) -> Result<(), ReadFault>
    ensures value { answered result «record».new gates.new ≡ read_of file.now (length gates.old) }
    ensures law { ReadLaw file.now (length gates.old) (answered result «record».new gates.new) }
    ensures model { OnOk result (sound «record».new gates.new ≡ true) }
{
    if let Err(fault) = fill(file, gates, record) {
        gates.fill(Gate::BLANK);
        *record = Record::blank();
        return Err(fault);
    }
    Ok(())
}

// Reads the file; where it refuses, it may leave anything in the gate table.
#[tactic(auto, unfolding(crate::specs::Read::fill_of, crate::specs::Read::body_of))]
fn fill(file: &[u8], gates: &mut [Gate], record: &mut Record) -> Result<(), ReadFault>
    ensures { filled result «record».new gates.new ≡ fill_of file.now (length gates.old) }
{
    if file.len() > MAX_FILE {
        return Err(ReadFault::FileTooLong);
    }
    let Some((first, rest)) = cut(file, b'\n') else {
        return Err(ReadFault::BadHeader);
    };
    let Some(header) = read_header(first) else {
        return Err(ReadFault::BadHeader);
    };
    check_sizes(header, gates.len())?;
    gates.fill(Gate::BLANK);
    let mut reading = Reading {
        state: Reader::new(header),
    };
    read_lines(&mut reading, gates, rest)?;
    *record = reading.state.model;
    Ok(())
}

#[tactic(auto, unfolding(crate::specs::Read::sized_of))]
fn check_sizes(header: Header, places: usize) -> Result<(), ReadFault>
    ensures value { result ≡ sized_of header places }
    ensures bounds { OnOk result (Bounds (model_of header) places) }
{
    let inputs = usize::from(header.inputs);
    let latches = usize::from(header.latches);
    let gates = usize::from(header.gates);
    if header.maximum > MAX_VARIABLE
        || inputs > MAX_INPUTS
        || latches > MAX_LATCHES
        || header.outputs != 1
        || gates > MAX_GATES
    {
        return Err(ReadFault::BadSizes);
    }
    if usize::from(header.maximum) < inputs + latches + gates {
        return Err(ReadFault::BadSizes);
    }
    if gates > places {
        return Err(ReadFault::ShortTable);
    }
    Ok(())
}

// Takes the lines of `text`, the first of which is line 2 of the file. The number is counted along, since the end has one too.
fn read_lines(reading: &mut Reading, gates: &mut [Gate], text: &[u8]) -> Result<(), ReadFault>
    requires fits { Fits reading.old.state (length gates.old) }
    requires short { length text.now ≤ 65536 }
    ensures { both result reading.new.state gates.new ≡ folded 2 (lines_of text.now) (state_of reading.old.state gates.old) }
{
    let mut rest = text;
    let mut at: u32 = 2;
    while let Some((line, after)) = cut(rest, b'\n') {
        reading.take(gates, at, classify(line))?;
        at += 1;
        rest = after;
    }
    if !rest.is_empty() {
        reading.take(gates, at, Line::Malformed)?;
        return reading.end(at + 1);
    }
    reading.end(at)
}
