// Whether one pair of ends fits at a pair of rates.
use super::lines::end_named;
use super::options::{Given, number};
use anyhow::bail;
use line::Refusal;
use link::{MOST_RATE, Verdict};
use sheet::{Clocked, Off, Way};
use std::io;
use words::Takes;

const TAKES: Takes<'static> = Takes {
    options: &["--format"],
    others: 4,
};

pub(crate) const HELP: &str = "usage: bench fit SENDER HERTZ RECEIVER HERTZ [--format 8N1]

Asks whether a sender and a receiver fit when their clocks have these rates, and
if they do, between which rates each clock may run. An end is written
usart:DIVIDER:MODULATOR or port:DIVIDER, as usart:6:6Fh or port:24.";

fn print_range(rt: &impl Print, whose: &str, way: Way, off: Off) -> io::Result<()> {
    let Some(range) = way.range(off) else {
        return Ok(());
    };
    println!(rt;
        "The {whose}'s clock may have {} to {} Hz, if the other's is as given.",
        range.start(),
        range.end()
    )
}

// The way that the words name.
fn way_named(words: &Given) -> anyhow::Result<Way> {
    let format = words.format()?;
    let from = Clocked {
        timing: end_named(format, words.needed(0, "sender")?)?,
        hertz: number(words.needed(1, "sender's rate")?, "sender's rate")?,
    };
    let to = Clocked {
        timing: end_named(format, words.needed(2, "receiver")?)?,
        hertz: number(words.needed(3, "receiver's rate")?, "receiver's rate")?,
    };
    Ok(Way { from, to })
}

fn print_verdict(rt: &impl Print, way: Way) -> anyhow::Result<()> {
    match way.verdict() {
        Ok(Verdict::Passes) => {
            println!(rt; "They fit: every character arrives as it was sent.")?;
            print_range(rt, "sender", way, Off::Sender)?;
            print_range(rt, "receiver", way, Off::Receiver)?;
        }
        Ok(Verdict::Early(bit)) => println!(rt;
            "They do not fit: bit {bit} of a frame can be sampled before it is on the line."
        )?,
        Ok(Verdict::Late(bit)) => println!(rt;
            "They do not fit: bit {bit} of a frame can be sampled after it has left the line."
        )?,
        Err(Refusal::OutOfRange) => bail!("a rate is not from 1 to {MOST_RATE} Hz"),
        Err(_) => bail!("the two formats do not agree"),
    }
    Ok(())
}

pub(crate) fn command(rt: &impl Print, words: &[String]) -> anyhow::Result<()> {
    let words = Given::new("fit", TAKES, words)?;
    let way = way_named(&words)?;
    print_verdict(rt, way)
}
