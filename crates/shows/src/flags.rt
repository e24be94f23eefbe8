// The flags of an entry, by name.
use super::bits::SetBits;
use ends::{BREAK, FRAMING, OVERRUN, PARITY};
use std::fmt;

const NAMES: [(u8, &str); 4] = [
    (OVERRUN, "overrun"),
    (PARITY, "parity error"),
    (FRAMING, "framing error"),
    (BREAK, "break"),
];

#[derive(Clone, Copy)]
pub struct Flags(pub u8);

impl fmt::Display for Flags {
    fn fmt<W: fmt::Write>(&self, f: &mut fmt::Formatter<W>) -> fmt::Result {
        let names = SetBits {
            byte: self.0,
            names: &NAMES,
            between: ", ",
        };
        write!(f, "{names}")
    }
}
