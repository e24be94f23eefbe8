// The receive side: URCTL, URXBUF and URXIFG.
ghost use Rattle.std.specs.Prelude.{◌≡◌};
ghost use Rattle.std.specs.Option.{option_to_list};
ghost use Rattle.chip.specs.Receiving.{receive_byte, urctl_written, cleared, all_taken};

use super::bits::{bits, byte, has};
use super::mode::Mode;
use ends::{BREAK, FRAMING, PARITY};

#[derive(Clone, Copy, PartialEq, Eq, Debug, Default)]
pub struct Receive {
    // framing error
    pub fe: bool,
    // parity error
    pub pe: bool,
    // overrun
    pub oe: bool,
    // break
    pub brk: bool,
    // bytes of erroneous characters are loaded too
    pub urxeie: bool,
    // where characters have an address bit, only addresses have an effect
    pub urxwie: bool,
    // the byte in URXBUF came with its address bit set
    pub rxwake: bool,
    // the byte in URXBUF has not been read
    pub urxifg: bool,
    // no Option, since it keeps its byte when it is read
    pub urxbuf: u8,
}

impl Receive {
    // A write of URCTL: the enables are stored, and a 0 clears a flag.
    pub(crate) fn write(&mut self, value: u8)
        ensures { self.new ≡ urctl_written self.old value }
    {
        let [fe, pe, oe, brk, urxeie, urxwie, rxwake, _] = bits(value);
        self.fe &= fe;
        self.pe &= pe;
        self.oe &= oe;
        self.brk &= brk;
        self.urxeie = urxeie;
        self.urxwie = urxwie;
        self.rxwake &= rxwake;
    }

    // URCTL as it is read: no From, since URXBUF is a byte of this too.
    pub(crate) fn byte(self) -> u8
        ensures { result ≡ receive_byte self }
    {
        byte([
            self.fe,
            self.pe,
            self.oe,
            self.brk,
            self.urxeie,
            self.urxwie,
            self.rxwake,
            self.fe || self.pe || self.oe || self.brk,
        ])
    }

    // Clears every flag.
    pub(crate) fn clear(&mut self)
        ensures { self.new ≡ cleared self.old }
    {
        *self = Receive {
            urxeie: self.urxeie,
            urxwie: self.urxwie,
            urxbuf: self.urxbuf,
            ..Receive::default()
        };
    }

    // What has arrived at a clock, if something has: an Option, so that `clock` has one path and its proof says each thing once.
    pub(crate) fn take(&mut self, mode: Mode, arrived: Option<(u16, u8)>)
        ensures { self.new ≡ all_taken mode self.old (option_to_list arrived) }
    {
        let Some((character, flags)) = arrived else {
            return;
        };
        let address = character >= mode.values();
        if mode.mm && self.urxwie && !address {
            return;
        }
        self.fe |= has(flags, FRAMING);
        self.pe |= has(flags, PARITY);
        self.brk |= has(flags, BREAK);
        if flags != 0 && !self.urxeie {
            return;
        }
        self.oe |= self.urxifg;
        self.urxifg = true;
        // below 256, so the cast keeps it
        self.urxbuf = (character % mode.values()) as u8;
        if mode.mm {
            self.rxwake = address;
        }
    }
}
