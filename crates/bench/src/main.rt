// The benchmark of the planner: plans of 31 stages in minutes, made by a rule. With no argument it
// shows what the calls answer, the same on every run; with `plans` it prints the plans; with
// `measure`, the nanoseconds that a call takes.
#![tactic(auto)]

mod asking;
mod draws;
mod kinds;
mod making;
mod measuring;
mod repairing;
mod showing;

use std::process::ExitCode;
use std::{env, io};

fn main(rt: HostRuntime) -> io::Result<ExitCode> {
    let mut words = env::args(&rt)?;
    let _program = words.next();
    let task = words.next();
    match task.as_ref().map(|word| word.as_str()) {
        None => showing::show_answers(&rt)?,
        Some("plans") => showing::show_plans(&rt)?,
        Some("measure") => measuring::measure(&rt)?,
        Some(_) => {
            eprintln!(&rt; "usage: bench [plans | measure]")?;
            return Ok(ExitCode::FAILURE);
        }
    }
    Ok(ExitCode::SUCCESS)
}
