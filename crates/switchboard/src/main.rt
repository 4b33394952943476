// The switchboard program: runs one task from start to end and says what took place.
#![tactic(auto)]

use std::env;

mod commitments;
mod drawing;
mod keys;
mod text;
mod three_moves;

fn run(rt: &HostRuntime) -> anyhow::Result<()> {
    let mut args = env::args(rt)?;
    let _program = args.next();
    match args.next() {
        Some(message) => commitments::run(rt, message.as_str())?,
        None => commitments::run(rt, "console 7 asks to listen on line 2")?,
    }
    keys::run(rt)?;
    drawing::run(rt)?;
    three_moves::run(rt)
}

fn main(rt: HostRuntime) -> anyhow::Result<()> {
    let outcome = run(&rt);
    outcome
}
