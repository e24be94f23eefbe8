// The lock's own port: the settings that are built into it, and cases of the rules worked out by hand.

#![tactic(auto)]

ghost use Rattle.std.specs.Prelude.{◌≡◌, Ok};
ghost use Rattle.ends.specs.Timed.{answered};
ghost use Rattle.usart.specs.Usart.{usart_times};
ghost use Rattle.lock.specs.Worked.{eight_n_one, Worked};

use ends::{Kind, Timing};
use line::{DataBits, Format, Parity, Refusal, StopBits};
use usart::{Settings, Usart};

// 8 data bits, no parity, one stop bit.
pub const FORMAT: Format = Format {
    size: DataBits::Eight,
    address: false,
    parity: Parity::Absent,
    stops: StopBits::One,
};

pub const CLOCK_HERTZ: u32 = 32768;

pub const DIVIDER: u16 = 6;

pub const MODULATOR: u8 = 0x6f;

// The times of the lock's port, at the watch crystal's rate.
pub fn lock_timing() -> Result<Timing, Refusal>
    ensures times { answered result ≡ Ok (usart_times eight_n_one 6 0x6f) }
    ensures worked { Worked }
{
    Usart::timing(FORMAT, Settings::new(DIVIDER, MODULATOR)?)
}
