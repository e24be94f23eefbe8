// A register's address and byte as a person reads them: its name, and the names of the bits that are set.
use super::bits::SetBits;
use super::entries::printable;
use chip::address::{UBR0, UBR1, UCTL, UMCTL, URCTL, URXBUF, UTCTL, UTXBUF};
use std::{array, fmt};

// The bits of each control register by name, bit 7 first.
const UCTL_BITS: [&str; 8] = ["PENA", "PEV", "SP", "CHAR", "Listen", "SYNC", "MM", "SWRST"];

const UTCTL_BITS: [&str; 8] = [
    "bit 7", "CKPL", "SSEL1", "SSEL0", "URXSE", "TXWake", "bit 1", "TXEPT",
];

const URCTL_BITS: [&str; 8] = [
    "FE", "PE", "OE", "BRK", "URXEIE", "URXWIE", "RXWake", "RXERR",
];

#[derive(Clone, Copy)]
pub struct Register {
    pub address: u16,
    pub value: u8,
}

// Two matches and no table of (address, name, meaning): with a variant that holds the names of the bits, as `Bits([&str; 8])`,
// the proof of `fmt` does not close, since the borrow checker does not cover it. Firmware may write to any address, so both
// have an arm for one that is no register's.
impl Register {
    fn name(self) -> &'static str {
        match self.address {
            // below the first register too, where there is none
            ..=UCTL => "UCTL",
            UTCTL => "UTCTL",
            URCTL => "URCTL",
            UMCTL => "UMCTL",
            UBR0 => "UBR0",
            UBR1 => "UBR1",
            URXBUF => "URXBUF",
            UTXBUF => "UTXBUF",
            _ => "?",
        }
    }
}

fn write_bits<W: fmt::Write>(byte: u8, names: [&str; 8], f: &mut fmt::Formatter<W>) -> fmt::Result {
    if byte == 0 {
        return f.write_str("no bit set");
    }
    let named: [(u8, &str); 8] = array::from_fn(|place| (0x80 >> place, names[place]));
    let set = SetBits {
        byte,
        names: &named,
        between: " ",
    };
    write!(f, "{set}")
}

fn write_character<W: fmt::Write>(byte: u8, f: &mut fmt::Formatter<W>) -> fmt::Result {
    match printable(byte) {
        Some(character) => write!(f, "'{character}'"),
        None => f.write_str("not a letter"),
    }
}

impl fmt::Display for Register {
    fn fmt<W: fmt::Write>(&self, f: &mut fmt::Formatter<W>) -> fmt::Result {
        let Register { address, value } = *self;
        let name = self.name();
        write!(f, "{address:02X}h {name:<7}   {value:02X}h  ")?;
        match address {
            UCTL => write_bits(value, UCTL_BITS, f),
            UTCTL => write_bits(value, UTCTL_BITS, f),
            URCTL => write_bits(value, URCTL_BITS, f),
            URXBUF | UTXBUF => write_character(value, f),
            UMCTL => f.write_str("modulator"),
            UBR0 => f.write_str("divider, low byte"),
            UBR1 => f.write_str("divider, high byte"),
            _ => f.write_str("no register"),
        }
    }
}
