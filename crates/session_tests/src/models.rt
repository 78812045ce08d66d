// Three small hosts, with the rows of their kept runs.

ghost use Rattle.std.specs.Prelude.{◌≡◌, true};
ghost use Rattle.circuit.specs.Sound.{sound};
ghost use Rattle.game.specs.Examples.{one_latch};
ghost use Rattle.game.specs.Models.{arena_of};
ghost use Rattle.game.specs.Runs.{Exact};
ghost use Rattle.session_tests.specs.Models.{free_latch};

use circuit::{Gate, Input, Latch, Model, Record, Side};
use game::Row;
use literal::Literal;
use region::Region;

// The gate that is true where the latch is set and the event is raised.
static GATES: [Gate; 1] = [Gate {
    output: Literal { code: 8 },
    left: Literal { code: 6 },
    right: Literal { code: 2 },
}];

// The row of the states in which the latch is set.
static ROWS: [Row; 1] = [Row {
    care: 1,
    value: 1,
    event: 1,
}];

// A model with the rows of its kept run.
#[derive(Drop)]
pub struct Host {
    record: Record,
    gates: &'static [Gate],
    rows: &'static [Row],
    ghost sound: { sound «record» gates.now ≡ true },
    ghost exact: { Exact (arena_of «record» gates.now) rows.now },
}

impl Host {
    pub fn region(&self) -> Region<'_> {
        Region::join(Model::join(&self.record, self.gates), self.rows)
    }

    // An event input (2), an answer input (4), and a latch (6) that takes over the negation of the answer. A step is bad (8) where the
    // latch is set and the event is raised.
    pub fn one_latch() -> Host {
        Host {
            record: one_latch(),
            gates: &GATES,
            rows: &ROWS,
        }
    }

    // The same inputs, and a latch that takes over the answer. No step is bad.
    pub fn free_latch() -> Host {
        Host {
            record: free_latch(),
            gates: &[],
            rows: &[],
        }
    }

    // No latches and no inputs: one state, one event, one answer.
    pub fn nothing() -> Host {
        Host {
            record: Record::blank(),
            gates: &[],
            rows: &[],
        }
    }
}

// Also in `circuit_tests`: neither crate of tests is to wait for the other.
fn one_latch() -> Record
    ensures { result ≡ one_latch 5 }
{
    let mut record = free_latch();
    record.maximum = 4;
    record.latches[0] = Latch {
        literal: Literal { code: 6 },
        next: Literal { code: 5 },
    };
    record.output = Literal { code: 8 };
    record.gate_count = 1;
    record
}

fn free_latch() -> Record
    ensures { result ≡ free_latch }
{
    let mut record = Record::blank();
    record.maximum = 3;
    record.inputs[0] = Input {
        literal: Literal { code: 2 },
        side: Side::Event,
    };
    record.inputs[1] = Input {
        literal: Literal { code: 4 },
        side: Side::Answer,
    };
    record.input_count = 2;
    record.latches[0] = Latch {
        literal: Literal { code: 6 },
        next: Literal { code: 4 },
    };
    record.latch_count = 1;
    record
}
