// The lock line bench.

#![tactic(auto)]

mod commands;
mod drawing;
mod fitting;
mod lines;
mod options;
mod scanning;
mod settings_sheet;

use commands::{HELP, PLAIN, command_given, help};
use options::Given;
use shows::SAMPLE;
use std::env;
use std::process::ExitCode;

// An error is told in one line. Where standard error cannot be written, the status alone tells it.
fn main(rt: HostRuntime) -> ExitCode {
    let Err(error) = start(&rt) else {
        return ExitCode::SUCCESS;
    };
    let _ = eprintln!(rt; "bench: {error}");
    ExitCode::FAILURE
}

fn start(rt: &HostRuntime) -> anyhow::Result<()> {
    let words: Vec<String> = env::args(rt)?.skip(1).collect(rt.alloc())?;
    let Some((word, rest)) = words.as_slice().split_first() else {
        return show(rt);
    };
    let asks_help = rest.first().is_some_and(|word| word.as_str() == "--help");
    if word.as_str() == "--help" && !asks_help {
        Given::new("", PLAIN, rest)?;
        return Ok(rt.println(HELP)?);
    }
    let command = command_given(word.as_str())?;
    if asks_help {
        return Ok(rt.println(help(command))?);
    }
    commands::run(rt, command, rest)
}

// What bench prints when it is given no word.
fn show(rt: &(impl Print + AllocGlobal)) -> anyhow::Result<()> {
    shows::print_table(rt)?;
    println!(rt; "")?;
    shows::demo(rt, SAMPLE)?;
    println!(rt; "")?;
    shows::join(rt, SAMPLE)
}
