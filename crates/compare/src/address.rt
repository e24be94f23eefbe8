// The addresses of the chip's registers, and the bits of the control registers that count. The library has them too:
// they stand here again since the second emulator is written apart from it.
pub(crate) const UCTL: u16 = 0x70;

pub(crate) const UTCTL: u16 = 0x71;

pub(crate) const URCTL: u16 = 0x72;

pub(crate) const UMCTL: u16 = 0x73;

pub(crate) const UBR0: u16 = 0x74;

pub(crate) const UBR1: u16 = 0x75;

pub(crate) const URXBUF: u16 = 0x76;

pub(crate) const UTXBUF: u16 = 0x77;

// In UCTL.
pub(crate) const PENA: u8 = 0x80;

pub(crate) const PEV: u8 = 0x40;

pub(crate) const SP: u8 = 0x20;

pub(crate) const CHAR: u8 = 0x10;

pub(crate) const LISTEN: u8 = 0x08;

pub(crate) const SYNC: u8 = 0x04;

pub(crate) const MM: u8 = 0x02;

pub(crate) const SWRST: u8 = 0x01;

// In UTCTL.
pub(crate) const TXWAKE: u8 = 0x04;

pub(crate) const TXEPT: u8 = 0x01;

// In URCTL.
pub(crate) const FE: u8 = 0x80;

pub(crate) const PE: u8 = 0x40;

pub(crate) const OE: u8 = 0x20;

pub(crate) const BRK: u8 = 0x10;

pub(crate) const URXEIE: u8 = 0x08;

pub(crate) const URXWIE: u8 = 0x04;

pub(crate) const RXWAKE: u8 = 0x02;

pub(crate) const RXERR: u8 = 0x01;

// The masks of those that are set, in one byte.
pub(crate) fn joined(bits: &[(u8, bool)]) -> u8 {
    bits.iter()
        .filter(|(_, set)| *set)
        .fold(0u8, |value, (bit, _)| value | *bit)
}
