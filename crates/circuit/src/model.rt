// A model: a record and its gates, as a reader accepts them.

ghost use Rattle.std.specs.Prelude.{◌≡◌, true};
ghost use Rattle.circuit.specs.Sound.{sound};

use crate::record::{Gate, Record};
use literal::Literal;

#[derive(Clone, Copy)]
pub struct Model<'a> {
    pub(crate) record: &'a Record,
    pub(crate) gates: &'a [Gate],
    ghost fit: { sound «record».now gates.now ≡ true },
}

impl<'a> Model<'a> {
    // Joins what a reader accepted. It refuses nothing.
    pub fn join(record: &'a Record, gates: &'a [Gate]) -> Model<'a>
        requires { sound «record».now gates.now ≡ true }
        ensures same_record { result.«record».now ≡ «record».now }
        ensures same_gates { result.gates.now ≡ gates.now }
    {
        Model { record, gates }
    }

    // The literal that is true where a step breaks a rule.
    pub fn output(&self) -> Literal
        ensures { result ≡ self.now.«record».now.output }
    {
        self.record.output
    }
}
