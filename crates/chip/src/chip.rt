// The chip: its registers and its two ends, how the registers are written and read, and how it is clocked.
ghost use Rattle.std.specs.Prelude.{◌≡◌, false, None};
ghost use Rattle.std.specs.Option.{ForSome};
ghost use Rattle.line.specs.Frames.{width};
ghost use Rattle.ends.specs.BareSender.{meant};
ghost use Rattle.chip.specs.Modes.{format_of};
ghost use Rattle.chip.specs.Receiving.{cleared};

use super::address::*;
use super::bits::has;
use super::mode::{Mode, SWRST, SYNC};
use super::pair::Ends;
use super::rate::Rate;
use super::receive::Receive;
use super::transmit::Transmit;
use ends::{Kind, Sender};
use line::{Format, Level, Refusal};
use usart::{Settings, Usart};

// What the two interrupt flags tell.
#[derive(Clone, Copy, PartialEq, Eq, Debug)]
pub struct Interrupts {
    // a byte in URXBUF has not been read
    pub urxifg: bool,
    // a byte may be written to UTXBUF
    pub utxifg: bool,
}

// No Model: the chip is copied, so one would have to give its fields back, and what the ends mean has less than their tables.
#[derive(Clone, Copy)]
pub struct Chip {
    pub(crate) mode: Mode,
    pub(crate) transmit: Transmit,
    pub(crate) receive: Receive,
    pub(crate) rate: Rate,
    // none while held in reset
    pub(crate) ends: Option<Ends>,
    // in reset every flag is clear, and both wake bits
    ghost clear: { ends ≡ None → (receive ≡ cleared receive) × (transmit.txwake ≡ false) },
    // the sender takes what is written in this mode
    ghost wide: { ForSome ends (λ e. width (meant e.sender).format ≡ width (format_of mode)) },
}

impl Chip {
    ghost use Rattle.std.specs.Prelude.{◌≡◌, ℕ, ◌<◌, true, false, not, if◌then◌else◌, Some, None, Ok, Err, nat_lt};
    ghost use Rattle.line.specs.declared.refusal.Refusal.TheVariants.{OutOfRange};
    ghost use Rattle.chip.specs.Transmitting.{unwoken};
    ghost use Rattle.chip.specs.Receiving.{cleared};
    ghost use Rattle.chip.specs.Chips.{ChipState, chip_of, holding, released, power_up, divider, begun, write_answer, after_write, read_answer, after_read, utxd, after_clock};
    ghost use Rattle.chip.specs.Laws.{Tells, Rests, ReadAtPowerUp, ReadBack, Speaks, Listens};

    // A chip just after power-up, held in reset.
    pub fn power_up() -> Chip
        ensures state { chip_of result ≡ power_up }
        ensures read { ReadAtPowerUp (chip_of result) }
        ensures stored { (c : ChipState) (v : ℕ) → v < 256 → ReadBack c v }
    {
        Chip {
            mode: Mode::default(),
            transmit: Transmit::default(),
            receive: Receive::default(),
            rate: Rate::default(),
            ends: None,
        }
    }

    // Whether SWRST is set.
    fn is_held(&self) -> bool
        ensures { result ≡ not (released (chip_of self.now)) }
    {
        self.ends.is_none()
    }

    fn utxifg(&self) -> bool
        ensures { result ≡ (chip_of self.now).utxifg }
    {
        self.ends.as_ref().is_none_or(|ends| ends.sender.has_room())
    }

    fn txept(&self) -> bool
        ensures { result ≡ (chip_of self.now).txept }
    {
        self.ends.as_ref().is_none_or(|ends| ends.sender.is_done())
    }

    pub fn interrupts(&self) -> Interrupts
        ensures urxifg { result.urxifg ≡ (chip_of self.now).receive.urxifg }
        ensures utxifg { result.utxifg ≡ (chip_of self.now).utxifg }
        ensures tells { Tells (chip_of self.now) }
        ensures rests { released (chip_of self.now) ≡ false → Rests (chip_of self.now) }
    {
        Interrupts {
            urxifg: self.receive.urxifg,
            utxifg: self.utxifg(),
        }
    }

    // SWRST is set: both ends are at rest, and every flag is cleared.
    fn hold(&mut self, mode: Mode)
        ensures { chip_of self.new ≡ holding mode (unwoken self.old.transmit) (cleared self.old.receive) self.old.rate None }
    {
        self.ends = None;
        self.mode = mode;
        self.transmit.txwake = false;
        self.receive.clear();
    }

    // SWRST is cleared: both ends begin, with the settings that the registers hold.
    fn release(&mut self, mode: Mode) -> Result<(), Refusal>
        ensures answer { result ≡ (if nat_lt (divider self.old.rate) 3 then Err OutOfRange else Ok tt) }
        ensures state { chip_of self.new ≡ (if nat_lt (divider self.old.rate) 3 then chip_of self.old else holding mode self.old.transmit self.old.receive self.old.rate (Some (begun mode self.old.rate))) }
    {
        let timing = Usart::timing(Format::from(mode), Settings::try_from(self.rate)?)?;
        self.ends = Some(Ends::at_rest(timing));
        self.mode = mode;
        Ok(())
    }

    // A write of UTXBUF while UTXIFG is 1.
    fn send(&mut self, byte: u8) -> Result<(), Refusal>
        requires { (chip_of self.old).utxifg ≡ true }
        ensures answer { result ≡ write_answer (chip_of self.old) UTXBUF byte }
        ensures state { chip_of self.new ≡ after_write (chip_of self.old) UTXBUF byte }
    {
        let Some(ends) = &mut self.ends else {
            return Err(Refusal::Closed);
        };
        let character = self.mode.character(self.transmit.txwake, byte);
        ends.sender.load(character)?;
        self.transmit = Transmit {
            txwake: false,
            utxbuf: self.mode.cut(byte),
            ..self.transmit
        };
        Ok(())
    }

    pub fn write(&mut self, address: u16, value: u8) -> Result<(), Refusal>
        ensures answer { result ≡ write_answer (chip_of self.old) address value }
        ensures state { chip_of self.new ≡ after_write (chip_of self.old) address value }
    {
        let held = self.is_held();
        match address {
            UCTL if has(value, SWRST) => self.hold(Mode::from(value)),
            UCTL if held && has(value, SYNC) => return Err(Refusal::SyncSet),
            UCTL if held => return self.release(Mode::from(value)),
            UTCTL => self.transmit.write(value, held),
            URCTL => self.receive.write(value),
            UMCTL if held => self.rate.modulator = value,
            UBR0 if held => self.rate.low = value,
            UBR1 if held => self.rate.high = value,
            // in reset UTXIFG is 1
            UTXBUF if !self.utxifg() => return Err(Refusal::Full),
            UTXBUF if !held => return self.send(value),
            UCTL..=UTXBUF => return Err(Refusal::Closed),
            _ => return Err(Refusal::NoSuchRegister),
        }
        Ok(())
    }

    pub fn read(&mut self, address: u16) -> Result<u8, Refusal>
        ensures answer { result ≡ read_answer (chip_of self.old) address }
        ensures state { chip_of self.new ≡ after_read (chip_of self.old) address }
    {
        match address {
            UCTL => Ok(self.mode.byte(self.is_held())),
            UTCTL => Ok(self.transmit.byte(self.txept())),
            URCTL => Ok(self.receive.byte()),
            UMCTL => Ok(self.rate.modulator),
            UBR0 => Ok(self.rate.low),
            UBR1 => Ok(self.rate.high),
            URXBUF => {
                self.receive.clear();
                Ok(self.receive.urxbuf)
            }
            UTXBUF => Ok(self.transmit.utxbuf),
            _ => Err(Refusal::NoSuchRegister),
        }
    }

    // One clock, with the level on the line that is received: the level on UTXD.
    pub fn clock(&mut self, level: Level) -> Level
        ensures level { result ≡ utxd (chip_of self.old) }
        ensures state { chip_of self.new ≡ after_clock (chip_of self.old) level }
        ensures speaks { Speaks (chip_of self.old) }
        ensures listens { Listens (chip_of self.old) }
    {
        let Some(ends) = &mut self.ends else {
            return Level::Mark;
        };
        let (utxd, arrived) = ends.clock(self.mode.listen, level);
        self.receive.take(self.mode, arrived);
        utxd
    }
}
