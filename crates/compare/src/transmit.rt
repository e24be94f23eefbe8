// The half of a chip that is set up, released and sends. What it hears it writes down for the other half.
use super::address;
use super::hearing::{Entry, heard};
use super::said::{Answer, Said};
use super::schedule::Schedule;
use super::shape::Shape;
use super::times::{End, Gear};
use line::{DataBits, Level, Parity, Refusal, StopBits};
use std::alloc::{AllocError, Global};

// An entry that arrives, and the step of the case at which it does.
#[derive(Clone, Copy)]
pub(crate) struct Received {
    pub(crate) step: usize,
    pub(crate) shape: Shape,
    pub(crate) entry: Entry,
}

// A clock: the level heard at it, and the step of the case at which it was given.
#[derive(Clone, Copy)]
struct Clocked {
    level: Level,
    step: usize,
}

// What there is since the release: what is sent, how many clocks were given, and what was heard at each.
#[derive(Drop)]
struct Released {
    end: End,
    schedule: Schedule,
    clock: u32,
    clocked: Vec<Clocked>,
}

#[derive(Drop)]
pub(crate) struct Transmit {
    uctl: u8,
    utctl: u8,
    umctl: u8,
    ubr0: u8,
    ubr1: u8,
    utxbuf: u8,
    // none in reset
    released: Option<Released>,
}

// The format that a byte in UCTL says.
fn format(uctl: u8) -> Shape {
    let has = |bit: u8| uctl & bit != 0;
    Shape {
        data: if has(address::CHAR) {
            DataBits::Eight
        } else {
            DataBits::Seven
        },
        address: has(address::MM),
        parity: match (has(address::PENA), has(address::PEV)) {
            (false, _) => Parity::Absent,
            (true, false) => Parity::Odd,
            (true, true) => Parity::Even,
        },
        stops: if has(address::SP) {
            StopBits::Two
        } else {
            StopBits::One
        },
    }
}

impl Released {
    fn new(heap: Global, end: End) -> Released {
        Released {
            end,
            schedule: Schedule::new(heap, end),
            clock: 0,
            clocked: Vec::new(heap),
        }
    }

    fn has_room(&self) -> bool {
        self.schedule.waiting(self.clock) == 0
    }

    // Sends a clock, at which the chip hears itself if it listens.
    fn clock(&mut self, heard: Level, listens: bool, step: usize) -> Result<Level, AllocError> {
        let utxd = self.schedule.level(self.clock);
        let level = if listens { utxd } else { heard };
        self.clocked.push(Clocked { level, step })?;
        self.clock = self.clock.saturating_add(1);
        Ok(utxd)
    }

    // What was taken down, at the steps at which it arrived.
    fn hand_over(&self, heap: Global, received: &mut Vec<Received>) -> Result<(), AllocError> {
        let levels = self
            .clocked
            .iter()
            .map(|clocked| clocked.level)
            .collect::<Vec<Level>>(heap)?;
        for arrival in heard(heap, &self.end, levels.as_slice())?.iter() {
            if let Some(clocked) = self.clocked.get(arrival.clock) {
                received.push(Received {
                    step: clocked.step,
                    shape: self.end.shape,
                    entry: arrival.entry,
                })?;
            }
        }
        Ok(())
    }
}

impl Transmit {
    pub(crate) fn power_up() -> Transmit {
        Transmit {
            uctl: address::SWRST,
            utctl: 0,
            umctl: 0,
            ubr0: 0,
            ubr1: 0,
            utxbuf: 0,
            released: None,
        }
    }

    fn in_reset(&self) -> bool {
        self.released.is_none()
    }

    pub(crate) fn utxifg(&self) -> bool {
        self.released
            .as_ref()
            .is_none_or(|released| released.has_room())
    }

    fn write_uctl(&mut self, heap: Global, value: u8) -> Answer {
        if value & address::SWRST != 0 {
            self.uctl = value;
            self.utctl &= !address::TXWAKE;
            self.released = None;
            return Ok(Said::Done);
        }
        if !self.in_reset() {
            return Err(Refusal::Closed);
        }
        if value & address::SYNC != 0 {
            return Err(Refusal::SyncSet);
        }
        let gear = Gear::Usart {
            divider: u16::from(self.ubr1) * 256 + u16::from(self.ubr0),
            modulator: self.umctl,
        };
        let shape = format(value);
        if !gear.suits(shape) {
            return Err(Refusal::OutOfRange);
        }
        self.uctl = value;
        self.released = Some(Released::new(heap, End::new(shape, gear)));
        Ok(Said::Done)
    }

    // The byte as the format cuts it, and the character that is sent.
    fn cut(&self, shape: Shape, value: u8) -> (u8, u16) {
        let wakes = shape.address && self.utctl & address::TXWAKE != 0;
        let byte = shape.cut(u16::from(value));
        let above = if wakes { shape.values() } else { 0 };
        (byte, u16::from(byte) | above)
    }

    fn write_utxbuf(&mut self, value: u8) -> Result<Answer, AllocError> {
        let shape = match &self.released {
            None => return Ok(Err(Refusal::Closed)),
            Some(released) if !released.has_room() => return Ok(Err(Refusal::Full)),
            Some(released) => released.end.shape,
        };
        let (byte, character) = self.cut(shape, value);
        self.utxbuf = byte;
        self.utctl &= !address::TXWAKE;
        if let Some(released) = &mut self.released {
            released.schedule.add(released.clock, character)?;
        }
        Ok(Ok(Said::Done))
    }

    pub(crate) fn write(
        &mut self,
        heap: Global,
        register: u16,
        value: u8,
    ) -> Result<Answer, AllocError> {
        match register {
            address::UCTL => Ok(self.write_uctl(heap, value)),
            address::UTXBUF => self.write_utxbuf(value),
            _ => Ok(self.write_other(register, value)),
        }
    }

    fn write_other(&mut self, register: u16, value: u8) -> Answer {
        let closed = !self.in_reset();
        match register {
            address::UTCTL => {
                self.utctl = value & !address::TXEPT;
                if self.in_reset() {
                    self.utctl &= !address::TXWAKE;
                }
            }
            address::URCTL => {}
            address::URXBUF => return Err(Refusal::Closed),
            address::UMCTL..=address::UBR1 if closed => return Err(Refusal::Closed),
            address::UMCTL => self.umctl = value,
            address::UBR0 => self.ubr0 = value,
            address::UBR1 => self.ubr1 = value,
            _ => return Err(Refusal::NoSuchRegister),
        }
        Ok(Said::Done)
    }

    fn is_over(&self) -> bool {
        self.released
            .as_ref()
            .is_none_or(|released| released.schedule.is_over(released.clock))
    }

    // 0 for the two registers of the other half.
    pub(crate) fn read(&self, register: u16) -> Answer {
        Ok(Said::Byte(match register {
            address::UCTL => self.uctl,
            address::UTCTL if self.is_over() => self.utctl | address::TXEPT,
            address::UTCTL => self.utctl,
            address::UMCTL => self.umctl,
            address::UBR0 => self.ubr0,
            address::UBR1 => self.ubr1,
            address::UTXBUF => self.utxbuf,
            address::URCTL | address::URXBUF => 0,
            _ => return Err(Refusal::NoSuchRegister),
        }))
    }

    // The level that is sent: mark in reset.
    pub(crate) fn clock(&mut self, level: Level, step: usize) -> Result<Level, AllocError> {
        let listens = self.uctl & address::LISTEN != 0;
        match &mut self.released {
            None => Ok(Level::Mark),
            Some(released) => released.clock(level, listens, step),
        }
    }

    // Before a reset and at the end of a case: what was taken down since the release.
    pub(crate) fn hand_over(
        &self,
        heap: Global,
        received: &mut Vec<Received>,
    ) -> Result<(), AllocError> {
        match &self.released {
            None => Ok(()),
            Some(released) => released.hand_over(heap, received),
        }
    }
}
