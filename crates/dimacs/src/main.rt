// Decides a DIMACS text from standard input, and prints the answer as SAT competitions do.
#![tactic(auto)]

mod answer;
mod solve;

use answer::{Reason, values_text};
use solve::solve;
use std::io::Read;
use std::process::ExitCode;

fn run(rt: &HostRuntime) -> anyhow::Result<ExitCode> {
    let mut text = Vec::new(rt.alloc());
    rt.stdin().read_to_end(&mut text)?;
    match solve(rt.alloc(), &text) {
        Ok(Some(values)) => {
            let lines = values_text(rt.alloc(), &values)?;
            println!(rt; "s SATISFIABLE\n{lines}")?;
        }
        Ok(None) => println!(rt; "s UNSATISFIABLE")?,
        Err(fault) => {
            let reason = Reason(fault);
            eprintln!(rt; "dimacs: {reason}")?;
            return Ok(ExitCode::FAILURE);
        }
    }
    Ok(ExitCode::SUCCESS)
}

fn main(rt: HostRuntime) -> anyhow::Result<ExitCode> {
    run(&rt)
}
