// What each command of the bench does, and its help.
use super::options::Given;
use super::{drawing, fitting, scanning, settings_sheet};
use anyhow::{Context, bail};
use shows::SAMPLE;
use std::rt::Files;
use words::{Command, Takes};

// What a command without options takes.
pub(crate) const PLAIN: Takes<'static> = Takes {
    options: &[],
    others: 0,
};

pub(crate) const HELP: &str = "usage: bench [WORD ..]

  sheet   the settings sheet: which settings may be built into a lock, and how
          far the clock of a laptop may be off
  fit     whether one pair of ends fits at a pair of rates
  draw    a text as a port puts it on the line
  scan    a capture of a line, for its characters and their flags
  table   the settings that are built into locks, each with the baud rate that
          it truly gives and how far that is from the nominal one
  demo    draws a lock's record, scans it back, spoils it and scans it again
  link    joins the lock to a laptop and hands a record over clock by clock
  chip    drives a chip register by register, as firmware does

'bench WORD --help' says more of a word. demo and link take a record, a line of
text in quotes, or else a sample. Without a word bench does table, demo and link.";

const DEMO_HELP: &str = "usage: bench demo [RECORD]

Draws a lock's record, a line of text, level by level as the lock's port sends
it, scans the picture back, then spoils the picture in two places and tells which
characters carry which flags.";

const LINK_HELP: &str = "usage: bench link [RECORD]

Joins the lock to a laptop, asks whether their rates fit, and hands a record over
clock by clock; then the same with a laptop whose clock is off.";

const TABLE_HELP: &str = "usage: bench table

Prints the settings that are built into locks, each with the baud rate that it
truly gives over a frame of ten bits and how far that is from the nominal one.";

const CHIP_HELP: &str = "usage: bench chip

Sets a chip up register by register, as firmware does, releases it, and has it hear
a character of its own; each access to a register is shown.";

pub(crate) fn command_given(word: &str) -> anyhow::Result<Command> {
    word.parse().ok().context(format_args!(
        "unknown word '{word}'; 'bench --help' says which there are"
    ))
}

// No methods, here and in `run`: the enum is of words.
pub(crate) fn help(command: Command) -> &'static str {
    match command {
        Command::Sheet => settings_sheet::HELP,
        Command::Fit => fitting::HELP,
        Command::Draw => drawing::HELP,
        Command::Scan => scanning::HELP,
        Command::Table => TABLE_HELP,
        Command::Demo => DEMO_HELP,
        Command::Link => LINK_HELP,
        Command::Chip => CHIP_HELP,
    }
}

// Does what a command is for, with the words behind it.
pub(crate) fn run(
    rt: &(impl Files + Input + Print + Eprint + AllocGlobal),
    command: Command,
    words: &[String],
) -> anyhow::Result<()> {
    match command {
        Command::Sheet => settings_sheet::command(rt, words),
        Command::Fit => fitting::command(rt, words),
        Command::Draw => drawing::command(rt, words),
        Command::Scan => scanning::command(rt, words),
        Command::Table => {
            Given::new("table", PLAIN, words)?;
            Ok(shows::print_table(rt)?)
        }
        Command::Chip => {
            Given::new("chip", PLAIN, words)?;
            Ok(shows::drive(rt)?)
        }
        Command::Demo => shows::demo(rt, record(words)?),
        Command::Link => shows::join(rt, record(words)?),
    }
}

// The record that a demonstration takes: any word, or a sample.
fn record<'a>(words: &'a [String]) -> anyhow::Result<&'a str> {
    match words {
        [] => Ok(SAMPLE),
        [word] => Ok(word.as_str()),
        _ => bail!("too many words; put a record in quotes"),
    }
}
