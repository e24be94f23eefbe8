// The times of an end whose settings a person gave.
use anyhow::{Context, anyhow};
use ends::{Kind, Timing};
use line::Format;
use port::Port;
use std::ops::RangeInclusive;
use usart::Usart;

// The number, if a setting may have it.
fn within<T: TryFrom<u32> + Drop>(
    what: &str,
    number: u32,
    range: RangeInclusive<u32>,
) -> anyhow::Result<T>
where
    T::Error: Drop,
{
    let (least, most) = (*range.start(), *range.end());
    T::try_from(number)
        .ok()
        .filter(|_| range.contains(&number))
        .context(format_args!("{what} {number} is not from {least} to {most}"))
}

// The times of a USART.
pub fn usart_timing(format: Format, divider: u32, modulator: u32) -> anyhow::Result<Timing> {
    let divider = within("the USART's divider", divider, 3..=65_535)?;
    let modulator = within("the modulator", modulator, 0..=255)?;
    let settings = usart::Settings::new(divider, modulator).map_err(|_| anyhow!(
        "the USART's settings are out of range"
    ))?;
    Usart::timing(format, settings).map_err(|_| anyhow!("the USART has no such format"))
}

// The times of a laptop's port.
pub fn port_timing(format: Format, divider: u32) -> anyhow::Result<Timing> {
    let divider = within("the port's divider", divider, 1..=4096)?;
    let settings = port::Settings::new(divider).map_err(|_| anyhow!(
        "the port's divider is out of range"
    ))?;
    Port::timing(format, settings).map_err(|_| anyhow!("a laptop's port has no address bit"))
}
