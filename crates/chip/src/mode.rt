// UCTL but for SWRST: how the chip sends and receives from its release on.
ghost use Rattle.std.specs.Prelude.{◌≡◌, ◌%◌};
ghost use Rattle.chip.specs.Modes.{mode_of, mode_byte, format_of, values, character_of};

use super::bits::{bits, byte};
use line::{DataBits, Format, Parity, StopBits};

pub(crate) const SYNC: u8 = 0x04;

pub(crate) const SWRST: u8 = 0x01;

#[derive(Clone, Copy, PartialEq, Eq, Debug, Default)]
pub struct Mode {
    // a parity bit
    pub pena: bool,
    // even parity
    pub pev: bool,
    // two stop bits
    pub sp: bool,
    // CHAR: 8 data bits
    pub chars: bool,
    // the receiver sees what the sender sends
    pub listen: bool,
    // the synchronous mode, which is not built
    pub sync: bool,
    // an address bit
    pub mm: bool,
}

// UCTL as it is written.
impl From<u8> for Mode {
    ghost from_gives = { λ value mode. mode ≡ mode_of value };

    fn from(value: u8) -> Mode {
        let [pena, pev, sp, chars, listen, sync, mm, _] = bits(value);
        Mode {
            pena,
            pev,
            sp,
            chars,
            listen,
            sync,
            mm,
        }
    }
}

// The format that counts from release on.
impl From<Mode> for Format {
    ghost from_gives = { λ mode format. format ≡ format_of mode };

    fn from(mode: Mode) -> Format {
        Format {
            size: if mode.chars {
                DataBits::Eight
            } else {
                DataBits::Seven
            },
            address: mode.mm,
            parity: match (mode.pena, mode.pev) {
                (false, _) => Parity::Absent,
                (true, false) => Parity::Odd,
                (true, true) => Parity::Even,
            },
            stops: if mode.sp {
                StopBits::Two
            } else {
                StopBits::One
            },
        }
    }
}

impl Mode {
    // UCTL as it is read, with SWRST as it stands: no From, since SWRST is no part of a mode.
    pub(crate) fn byte(self, swrst: bool) -> u8
        ensures { result ≡ mode_byte self swrst }
    {
        byte([
            self.pena,
            self.pev,
            self.sp,
            self.chars,
            self.listen,
            self.sync,
            self.mm,
            swrst,
        ])
    }

    // How many values the data bits of a character have.
    pub(crate) fn values(self) -> u16
        ensures { result ≡ values self }
    {
        if self.chars { 256 } else { 128 }
    }

    // The byte, cut to the data bits.
    pub(crate) fn cut(self, value: u8) -> u8
        ensures { result ≡ value % values self }
    {
        // without an address bit it is below 256, so the cast keeps it
        self.character(false, value) as u8
    }

    // The character that a byte becomes, an address where `wake` is set and characters have an address bit: no From, since the wake bit and the mode
    // go in too.
    pub(crate) fn character(self, wake: bool, value: u8) -> u16
        ensures { result ≡ character_of self wake value }
    {
        let address = if self.mm && wake { self.values() } else { 0 };
        u16::from(value) % self.values() + address
    }
}
