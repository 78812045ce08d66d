#![tactic(auto, using(crate::proofs::Small::one_latch_sound, crate::proofs::Small::nothing_sound))]

use crate::models::{one_gate, one_latch};
use circuit::{Model, Record, Side, StepFault, on_side};
use std::process::Abort;
use std::test::Fail;

fn refuses(rt: &impl Abort, model: &Model, steps: [(u32, u32, u32); 3]) {
    for (state, event, answer) in steps {
        assert_eq!(rt;
            model.step(state, event, answer),
            Err(StepFault::OutOfRange)
        );
    }
}

#[test]
fn one_latch_steps(rt: HostRuntime) -> Result<(), Fail> {
    let record = one_latch();
    let gates = one_gate();
    let model = Model::join(&record, &gates);
    assert_eq!(rt; model.step(0, 0, 0), Ok((false, 1)));
    assert_eq!(rt; model.step(0, 0, 1), Ok((false, 0)));
    assert_eq!(rt; model.step(1, 1, 0), Ok((true, 1)));
    Ok(())
}

#[test]
fn sizes(rt: HostRuntime) -> Result<(), Fail> {
    let record = one_latch();
    let gates = one_gate();
    let model = Model::join(&record, &gates);
    assert_eq!(rt;
        (model.states(), model.events(), model.answers()),
        (2, 2, 2)
    );
    assert_eq!(rt; on_side(model.used_inputs(), Side::Event), 1);
    assert_eq!(rt; on_side(&record.inputs, Side::Event), 23);
    Ok(())
}

#[test]
fn numbers_out_of_range(rt: HostRuntime) -> Result<(), Fail> {
    let record = one_latch();
    let gates = one_gate();
    let model = Model::join(&record, &gates);
    refuses(&rt, &model, [(2, 0, 0), (0, 2, 0), (0, 0, 2)]);
    Ok(())
}

// With no latches and inputs there is one state, one event and one answer.
#[test]
fn nothing_at_all(rt: HostRuntime) -> Result<(), Fail> {
    let record = Record::blank();
    let model = Model::join(&record, &[]);
    assert_eq!(rt; model.step(0, 0, 0), Ok((false, 0)));
    refuses(&rt, &model, [(1, 0, 0), (0, 1, 0), (0, 0, 1)]);
    Ok(())
}
