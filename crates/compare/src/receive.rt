// The half of a chip that receives: URCTL, URXBUF and URXIFG.
use super::address;
use super::hearing::{BREAK, FRAMING, PARITY};
use super::transmit::Received;

const ERRORS: u8 = address::FE | address::PE | address::OE | address::BRK;

const ENABLES: u8 = address::URXEIE | address::URXWIE;

// The bits in URCTL for an entry's flags.
fn errors(flags: u8) -> u8 {
    address::joined(&[
        (address::FE, flags & FRAMING != 0),
        (address::PE, flags & PARITY != 0),
        (address::BRK, flags & BREAK != 0),
    ])
}

#[derive(Clone, Copy)]
pub(crate) struct Receive {
    pub(crate) urxifg: bool,
    // URCTL but for RXERR
    urctl: u8,
    urxbuf: u8,
}

impl Receive {
    pub(crate) fn power_up() -> Receive {
        Receive {
            urxifg: false,
            urctl: 0,
            urxbuf: 0,
        }
    }

    pub(crate) fn arrive(&mut self, received: Received) {
        let Received { shape, entry, .. } = received;
        let addressed = entry.character >= shape.values();
        if shape.address && self.urctl & address::URXWIE != 0 && !addressed {
            return;
        }
        let errors = errors(entry.flags);
        self.urctl |= errors;
        if errors != 0 && self.urctl & address::URXEIE == 0 {
            return;
        }
        self.urxbuf = shape.cut(entry.character);
        if shape.address {
            self.urctl &= !address::RXWAKE;
            if addressed {
                self.urctl |= address::RXWAKE;
            }
        }
        if self.urxifg {
            self.urctl |= address::OE;
        }
        self.urxifg = true;
    }

    pub(crate) fn reset(&mut self) {
        self.urxifg = false;
        self.urctl &= ENABLES;
    }

    // A 0 clears a flag and a 1 leaves it; the enables are stored.
    pub(crate) fn write_urctl(&mut self, value: u8) {
        self.urctl = self.urctl & value & !ENABLES | value & ENABLES;
    }

    pub(crate) fn read_urctl(&self) -> u8 {
        if self.urctl & ERRORS != 0 {
            self.urctl | address::RXERR
        } else {
            self.urctl
        }
    }

    pub(crate) fn read_urxbuf(&mut self) -> u8 {
        self.reset();
        self.urxbuf
    }
}
