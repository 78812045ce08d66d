// How large a model is, and the parts that it uses.

ghost use Rattle.std.specs.Prelude.{◌≡◌, ◌<◌, ◌≤◌};
ghost use Rattle.std.specs.List.{AllByRecursion};
ghost use Rattle.literal.specs.Truth.{variable_of};
ghost use Rattle.circuit.specs.Parts.{inputs_of, latches_of, gates_of};
ghost use Rattle.circuit.specs.Sound.{event_count, answer_count, side_count};
ghost use Rattle.circuit.specs.Step.{state_count, event_numbers, answer_numbers};

use crate::model::Model;
use crate::record::{Gate, Input, Latch, Side};

impl<'a> Model<'a> {
    // The largest variable that the model may use.
    pub fn maximum(&self) -> u16
        ensures { result ≡ self.now.«record».now.maximum }
    {
        self.record.maximum
    }

    #[tactic(auto, using(crate::proofs::Soundness::few_latches))]
    pub fn latches(&self) -> usize
        ensures value { result ≡ self.now.«record».now.latch_count }
        ensures few { result ≤ 32 }
    {
        self.record.latch_count
    }

    pub fn gates(&self) -> usize
        ensures { result ≡ self.now.«record».now.gate_count }
    {
        self.record.gate_count
    }

    #[tactic(auto, using(crate::proofs::Soundness::few_events))]
    pub fn event_inputs(&self) -> usize
        ensures value { result ≡ event_count (inputs_of self.now.«record».now) }
        ensures few { result ≤ 12 }
    {
        on_side(self.used_inputs(), Side::Event)
    }

    #[tactic(auto, using(crate::proofs::Soundness::few_answers))]
    pub fn answer_inputs(&self) -> usize
        ensures value { result ≡ answer_count (inputs_of self.now.«record».now) }
        ensures few { result ≤ 12 }
    {
        on_side(self.used_inputs(), Side::Answer)
    }

    // There can be 2^32 states, one more than a u32 holds.
    pub fn states(&self) -> u64
        ensures { result ≡ state_count self.now.«record».now }
    {
        1 << self.latches()
    }

    pub fn events(&self) -> u32
        ensures { result ≡ event_numbers self.now.«record».now }
    {
        1 << self.event_inputs()
    }

    pub fn answers(&self) -> u32
        ensures { result ≡ answer_numbers self.now.«record».now }
    {
        1 << self.answer_inputs()
    }

    // The inputs in file order, without the blank places past them; latches and gates likewise.
    #[tactic(auto, using(crate::proofs::Soundness::few_inputs, crate::proofs::Places::inputs_in_place))]
    pub fn used_inputs(&self) -> &'a [Input]
        ensures value { result.now ≡ inputs_of self.now.«record».now }
        ensures placed { AllByRecursion (λ i. variable_of i.literal < 4097) result.now }
    {
        &self.record.inputs[..self.record.input_count]
    }

    #[tactic(auto, using(crate::proofs::Soundness::few_latches, crate::proofs::Places::latches_in_place))]
    pub fn used_latches(&self) -> &'a [Latch]
        ensures value { result.now ≡ latches_of self.now.«record».now }
        ensures placed { AllByRecursion (λ l. variable_of l.literal < 4097) result.now }
    {
        &self.record.latches[..self.latches()]
    }

    #[tactic(auto, using(crate::proofs::Soundness::as_many_gates, crate::proofs::Places::gates_in_place))]
    pub fn used_gates(&self) -> &'a [Gate]
        ensures value { result.now ≡ gates_of self.now.«record».now self.now.gates.now }
        ensures placed { AllByRecursion (λ g. variable_of g.output < 4097) result.now }
    {
        &self.gates[..self.gates()]
    }
}

// How many of the inputs are on a side.
pub fn on_side(inputs: &[Input], side: Side) -> usize
    ensures { result ≡ side_count side inputs.now }
{
    inputs.iter().filter(|input| input.side == side).count()
}
