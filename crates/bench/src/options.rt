// What a command makes of the words behind it, and what it says where one is wrong or missing.
use anyhow::{Context, anyhow};
use line::Format;
use std::str::FromStr;
use words::{Takes, Unnamed, Words, format_named, number_written};

// The words behind a command. Its name is told where one is missing.
#[derive(Clone, Copy)]
pub(crate) struct Given<'a> {
    command: &'static str,
    words: Words<'a>,
}

impl<'a> Given<'a> {
    pub(crate) fn new(
        command: &'static str,
        takes: Takes<'static>,
        words: &'a [String],
    ) -> anyhow::Result<Given<'a>> {
        let words = Words::new(takes, words).map_err(|wrong| anyhow!("{wrong}"))?;
        Ok(Given { command, words })
    }

    // The style that --as names, of those there are, or else the usual one.
    pub(crate) fn style<S: Default + FromStr<Err = Unnamed>>(
        &self,
        known: &str,
    ) -> anyhow::Result<S> {
        match self.words.option("--as") {
            Some(word) => word
                .parse()
                .ok()
                .context(format_args!("--as: '{word}' is none of {known}")),
            None => Ok(S::default()),
        }
    }

    pub(crate) fn other(&self, at: usize) -> Option<&'a str> {
        self.words.other(at)
    }

    // The word with this number among those that are neither options nor their values, or a complaint that it is missing.
    pub(crate) fn needed(&self, at: usize, what: &str) -> anyhow::Result<&'a str> {
        let command = self.command;
        self.other(at).context(format_args!(
            "the {what} is missing; 'bench {command} --help' says more"
        ))
    }

    // The value of a numeric option, or another where it was not given.
    pub(crate) fn number(&self, name: &str, otherwise: u32) -> anyhow::Result<u32> {
        self.words
            .option(name)
            .map_or(Ok(otherwise), |text| number(text, name))
    }

    // The name of the format that --format gives, or 8N1.
    pub(crate) fn format_name(&self) -> &'a str {
        self.words.option("--format").unwrap_or("8N1")
    }

    pub(crate) fn format(&self) -> anyhow::Result<Format> {
        let name = self.format_name();
        format_named(name.as_bytes()).context(format_args!(
            "--format: '{name}' is no format; 8N1, 7E2 and 8AO1 are some"
        ))
    }
}

// The number that a text writes, or a complaint that it writes none.
pub(crate) fn number(text: &str, what: &str) -> anyhow::Result<u32> {
    number_written(text).context(format_args!("{what}: '{text}' is no number"))
}
