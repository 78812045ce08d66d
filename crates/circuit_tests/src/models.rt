// Two small models.

ghost use Rattle.std.specs.Prelude.{◌≡◌, true};
ghost use Rattle.circuit.specs.Sound.{sound};
ghost use Rattle.circuit_tests.specs.Models.{one_latch, one_gate};

use circuit::{Gate, Input, Latch, Record, Side};
use literal::Literal;

// An event input (2), an answer input (4), a latch (6) that takes over the negation of the answer, and as output the gate 8 = 6 & 2.
pub fn one_latch() -> Record
    ensures { result ≡ one_latch }
{
    let mut record = Record::blank();
    record.maximum = 4;
    record.inputs[0] = Input {
        literal: Literal { code: 2 },
        side: Side::Event,
    };
    record.inputs[1] = Input {
        literal: Literal { code: 4 },
        side: Side::Answer,
    };
    record.input_count = 2;
    record.latches[0] = Latch {
        literal: Literal { code: 6 },
        next: Literal { code: 5 },
    };
    record.latch_count = 1;
    record.output = Literal { code: 8 };
    record.gate_count = 1;
    record
}

pub fn one_gate() -> [Gate; 1]
    ensures { result ≡ one_gate }
{
    [Gate {
        output: Literal { code: 8 },
        left: Literal { code: 6 },
        right: Literal { code: 2 },
    }]
}
