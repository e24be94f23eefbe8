// The ports of the examples.
use ends::{Kind, Timing};
use line::{DataBits, Format, Parity, Refusal, StopBits};
use port::Port;
use usart::Usart;

// In the words of the line, since the examples stand on no crate of the lock.
pub const EIGHT_N_ONE: Format = Format {
    size: DataBits::Eight,
    address: false,
    parity: Parity::Absent,
    stops: StopBits::One,
};

// A USART's port of this format at divider 6 and modulator 6Fh.
pub fn usart_port(
    data_bits: u8,
    address_bits: u8,
    parity: u8,
    stop_bits: u8,
) -> Result<Timing, Refusal> {
    let format = Format::from_numbers(data_bits, address_bits, parity, stop_bits)?;
    Usart::timing(format, usart::Settings::new(6, 0x6f)?)
}

pub fn lock_port() -> Result<Timing, Refusal> {
    usart_port(8, 0, 0, 1)
}

// 8N1 at divider 24.
pub fn laptop_port() -> Result<Timing, Refusal> {
    Port::timing(EIGHT_N_ONE, port::Settings::new(24)?)
}
