// The settings sheet, for the laptop and the format that the words name.
use super::options::Given;
use anyhow::ensure;
use link::MOST_RATE;
use shows::{LAPTOP_HERTZ, print_sheet};
use words::Takes;

const TAKES: Takes<'static> = Takes {
    options: &["--laptop", "--format"],
    others: 0,
};

pub(crate) const HELP: &str = "usage: bench sheet [--laptop HERTZ] [--format 8N1]

Prints the settings sheet: for each setting that is built into locks, whether a
laptop's port may be trusted with it. --laptop is the rate of the clock of the
laptop's port, 1843200 Hz if it is not given.";

pub(crate) fn command(rt: &(impl Print + AllocGlobal), words: &[String]) -> anyhow::Result<()> {
    let words = Given::new("sheet", TAKES, words)?;
    let hertz = words.number("--laptop", LAPTOP_HERTZ)?;
    ensure!(
        (1..=MOST_RATE).contains(&hertz),
        "--laptop: {hertz} Hz is not from 1 to {MOST_RATE}"
    );
    print_sheet(rt, hertz, words.format_name(), words.format()?)
}
