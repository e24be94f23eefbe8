// The ends that a person names, and the options that set one.
use super::options::{Given, number};
use anyhow::bail;
use ends::Timing;
use line::Format;
use lock::{DIVIDER, MODULATOR};
use shows::{port_timing, usart_timing};

// An end by name: usart:DIVIDER:MODULATOR or port:DIVIDER.
pub(crate) fn end_named(format: Format, name: &str) -> anyhow::Result<Timing> {
    // Four parts, one more than an end has, so that a longer name is no end. In no `Vec`: a name may have any number of parts.
    let mut parts = name.split(':');
    match [parts.next(), parts.next(), parts.next(), parts.next()] {
        [Some("usart"), Some(divider), Some(modulator), None] => usart_timing(
            format,
            number(divider, "divider")?,
            number(modulator, "modulator")?,
        ),
        [Some("port"), Some(divider), None, None] => {
            port_timing(format, number(divider, "divider")?)
        }
        _ => bail!("'{name}' is no end; usart:6:6Fh and port:24 are some"),
    }
}

// The times that --format, --divider and --modulator set, or those of the lock's port.
pub(crate) fn chosen(words: &Given) -> anyhow::Result<Timing> {
    let format = words.format()?;
    let divider = words.number("--divider", u32::from(DIVIDER))?;
    let modulator = words.number("--modulator", u32::from(MODULATOR))?;
    usart_timing(format, divider, modulator)
}
