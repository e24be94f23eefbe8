// Holds the library against a second emulator, written from its documents by another method: from absolute times.

#![tactic(auto)]

mod acts;
mod address;
mod chips;
mod dice;
mod firmware;
mod fits;
mod frames;
mod hearing;
mod inbox;
mod levels;
mod links;
mod pictures;
mod receive;
mod said;
mod scans;
mod schedule;
mod shape;
mod tally;
mod times;
mod transmit;

use anyhow::ensure;
use chips::Driven;
use fits::Rated;
use frames::Timed;
use links::Linked;
use pictures::Drawn;
use scans::Scanned;
use std::io;
use std::process::ExitCode;
use tally::Tally;

// An error is told in one line. Where standard error cannot be written, the status alone tells it.
fn main(rt: HostRuntime) -> ExitCode {
    let Err(error) = start(&rt) else {
        return ExitCode::SUCCESS;
    };
    let _ = eprintln!(rt; "compare: {error}");
    ExitCode::FAILURE
}

fn start(rt: &(impl Print + AllocGlobal)) -> anyhow::Result<()> {
    let same = [
        told(rt, "frames", frames::compare_frames(rt)?)?,
        told(
            rt,
            "bit lengths and samples",
            tally::compare::<Timed>(rt, 1200)?,
        )?,
        told(rt, "pictures drawn", tally::compare::<Drawn>(rt, 2400)?)?,
        told(rt, "pictures scanned", tally::compare::<Scanned>(rt, 4800)?)?,
        told(
            rt,
            "rates that fit or not",
            tally::compare::<Rated>(rt, 1500)?,
        )?,
        told(rt, "links", tally::compare::<Linked>(rt, 2400)?)?,
        told(rt, "chips", tally::compare::<Driven>(rt, 2400)?)?,
    ];
    ensure!(
        !same.contains(&false),
        "the library and the second emulator differ"
    );
    Ok(())
}

// Prints the line of a kind, and says whether all its cases are the same.
fn told(rt: &impl Print, kind: &str, tally: Tally) -> io::Result<bool> {
    println!(rt; "{kind:<24}{tally}")?;
    Ok(tally.differences == 0)
}
