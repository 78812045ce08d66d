// What the benchmarks call.
#![tactic(auto)]

ghost use Rattle.std.specs.Prelude.{◌≡◌};
ghost use Rattle.aiger.specs.Read.{read_of};
ghost use Rattle.measured.specs.Walk.{walked, last_in, reached_in, refused_in};

use aiger::ReadFault;
use circuit::record::MAX_GATES;
use circuit::{Gate, Model, Record};

const REFUSED: u64 = 0x1_0000_0000;

// A refusal is a number here, since C calls these two by way of `measured_c`.

// Reads a model and steps it `count` times; the last state, or 2^32 and the number of the refusal.
pub fn dilgrast_walk(file: &[u8], count: u32) -> u64
    ensures { result ≡ reached_in (read_of file.now 2048) count }
{
    match walk_file(file, count) {
        Ok(state) => u64::from(state),
        Err(fault) => REFUSED + u64::from(fault.number()),
    }
}

// Reads a model; 0, or the number of the refusal.
pub fn dilgrast_read(file: &[u8]) -> u32
    ensures { result ≡ refused_in (read_of file.now 2048) }
{
    match walk_file(file, 0) {
        Ok(_) => 0,
        Err(fault) => u32::from(fault.number()),
    }
}

// Reads a model and steps it `count` times.
fn walk_file(file: &[u8], count: u32) -> Result<u32, ReadFault>
    ensures { result ≡ last_in (read_of file.now 2048) count }
{
    let mut gates = [Gate::BLANK; MAX_GATES];
    let mut record = Record::blank();
    aiger::read(file, &mut gates, &mut record)?;
    Ok(walk(&Model::join(&record, &gates), count))
}

// From state 0, where step i takes its event and its answer from i.
fn walk(model: &Model, count: u32) -> u32
    ensures { result ≡ walked model.now.«record».now model.now.gates.now count 0 0 }
{
    let events = model.events();
    let answers = model.answers();
    let mut state = 0;
    for i in 0..count {
        if let Ok((_, next)) = model.step(state, i % events, i / events % answers) {
            state = next;
        }
    }
    state
}
