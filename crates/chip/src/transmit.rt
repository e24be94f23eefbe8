// The transmit side: UTCTL and UTXBUF.
ghost use Rattle.std.specs.Prelude.{◌≡◌};
ghost use Rattle.chip.specs.Transmitting.{transmit_byte, utctl_written};

use super::bits::{bits, byte};

// All but TXWake are stored and do nothing here.
#[derive(Clone, Copy, PartialEq, Eq, Debug, Default)]
pub struct Transmit {
    pub unused7: bool,
    // clock polarity
    pub ckpl: bool,
    // clock source
    pub ssel1: bool,
    pub ssel0: bool,
    // interrupt at a start edge
    pub urxse: bool,
    // the next byte is an address
    pub txwake: bool,
    pub unused1: bool,
    pub utxbuf: u8,
}

impl Transmit {
    // A write of UTCTL; in reset TXWake stays 0.
    pub(crate) fn write(&mut self, value: u8, swrst: bool)
        ensures { self.new ≡ utctl_written self.old swrst value }
    {
        let [unused7, ckpl, ssel1, ssel0, urxse, txwake, unused1, _] = bits(value);
        *self = Transmit {
            unused7,
            ckpl,
            ssel1,
            ssel0,
            urxse,
            txwake: !swrst && txwake,
            unused1,
            utxbuf: self.utxbuf,
        };
    }

    // UTCTL as it is read, with TXEPT as it stands: no From, since TXEPT is no part of this.
    pub(crate) fn byte(self, txept: bool) -> u8
        ensures { result ≡ transmit_byte self txept }
    {
        byte([
            self.unused7,
            self.ckpl,
            self.ssel1,
            self.ssel0,
            self.urxse,
            self.txwake,
            self.unused1,
            txept,
        ])
    }
}
