// The addresses of the registers. An enum made of the address was tried: the goals that say the chip's state after a write of UTCTL and of URCTL
// stay open. And the rules of a write are one match over the addresses, so constants would stand beside it all the same.
pub const UCTL: u16 = 0x70;

pub const UTCTL: u16 = 0x71;

pub const URCTL: u16 = 0x72;

// the modulator
pub const UMCTL: u16 = 0x73;

// the divider's low byte
pub const UBR0: u16 = 0x74;

// the divider's high byte
pub const UBR1: u16 = 0x75;

pub const URXBUF: u16 = 0x76;

pub const UTXBUF: u16 = 0x77;
