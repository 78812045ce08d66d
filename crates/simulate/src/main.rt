// Steps a model through a script, and says what each step answers.
#![tactic(auto)]

mod reply;

use aiger::ReadFault;
use anyhow::anyhow;
use circuit::record::MAX_GATES;
use circuit::{Gate, Model, Record};
use reply::{reply_to, state_after};
use std::io::{BufRead, BufReader};
use std::process::ExitCode;
use std::{env, fs, io};

fn main(rt: HostRuntime) -> ExitCode {
    match run(&rt) {
        Ok(code) => code,
        Err(fault) => {
            // Where this fails too, the status says it.
            let _ = eprintln!(rt; "simulate: {fault}");
            ExitCode::FAILURE
        }
    }
}

// Reads the model that the argument names, and follows the script on standard input.
fn run(rt: &HostRuntime) -> anyhow::Result<ExitCode> {
    let heap = rt.alloc();
    let mut args = env::args(rt)?;
    let _program = args.next();
    let Some(path) = args.next() else {
        return Err(anyhow!("give the file of a model as the argument"));
    };
    let file = match fs::read(rt, path.as_str()) {
        Ok(file) => file,
        Err(fault) => {
            // Told here, since an `anyhow` error has no room for a long path.
            eprintln!(rt; "simulate: cannot read {path}: {fault}")?;
            return Ok(ExitCode::FAILURE);
        }
    };
    let mut gates = vec![in heap; Gate::BLANK; MAX_GATES]?;
    let mut record = Record::blank();
    simulate(rt, file.as_slice(), gates.as_mut_slice(), &mut record)?;
    Ok(ExitCode::SUCCESS)
}

fn simulate(
    rt: &HostRuntime,
    file: &[u8],
    gates: &mut [Gate],
    record: &mut Record,
) -> io::Result<()> {
    match aiger::read(file, gates, record) {
        Ok(()) => follow(rt, &Model::join(record, gates)),
        Err(fault) => tell_refusal(rt, fault),
    }
}

fn tell_refusal(rt: &HostRuntime, fault: ReadFault) -> io::Result<()> {
    let number = fault.number();
    let line = fault.line();
    println!(rt; "refused {number} at {line}: {fault}")
}

// Goes on from the state that each line leaves, from state 0.
fn follow(rt: &HostRuntime, model: &Model) -> io::Result<()> {
    let mut state = 0;
    let lines = BufReader::new(rt.alloc(), rt.stdin())?.split(rt.alloc(), b'\n');
    for (line, at) in lines.zip(1..) {
        let line = line?;
        let reply = reply_to(model, state, at, line.as_slice());
        match reply {
            Ok(step) => println!(rt; "{step}")?,
            Err(fault) => println!(rt; "{fault}")?,
        }
        state = state_after(reply, state);
    }
    Ok(())
}
