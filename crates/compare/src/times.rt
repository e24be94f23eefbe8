// When the bits of a frame begin and when they are sampled, each as a distance from the frame's first clock.
use super::dice::Dice;
use super::shape::Shape;
use ends::{Kind, Timing};
use line::{Format, Level, Refusal};
use port::Port;
use std::{array, fmt};
use usart::Usart;

// The settings of an end.
#[derive(Clone, Copy, Debug)]
pub(crate) enum Gear {
    Usart { divider: u16, modulator: u8 },
    Port { divider: u16 },
}

impl Gear {
    // The clocks of a bit of the frame.
    fn length(self, bit: usize) -> u32 {
        match self {
            Gear::Port { divider } => 16 * u32::from(divider),
            Gear::Usart { divider, modulator } => {
                u32::from(divider) + u32::from(modulator >> (bit % 8)) % 2
            }
        }
    }

    // The clocks before a bit of the frame.
    fn start(self, bit: usize) -> u32 {
        (0..bit).fold(0u32, |start, before| {
            start.saturating_add(self.length(before))
        })
    }

    // The three sample clocks of a bit.
    fn samples(self, bit: usize) -> [u32; 3] {
        let (middle, aside) = match self {
            Gear::Port { divider } => (8 * u32::from(divider), u32::from(divider)),
            Gear::Usart { .. } => (self.length(bit) / 2, spread(self.length(bit))),
        };
        let second = self.start(bit).saturating_add(middle);
        [
            second.saturating_sub(aside),
            second,
            second.saturating_add(aside),
        ]
    }

    pub(crate) fn break_length(self) -> u32 {
        match self {
            Gear::Port { divider } => 160 * u32::from(divider),
            Gear::Usart { divider, .. } => 10 * u32::from(divider),
        }
    }

    // Whether an end of this format can have these settings.
    pub(crate) fn suits(self, shape: Shape) -> bool {
        match self {
            Gear::Port { divider } => (1..=4096).contains(&divider) && !shape.address,
            Gear::Usart { divider, .. } => divider >= 3,
        }
    }
}

// The distance of a USART's outer samples from the middle one: a thirty-second of the largest power of two that is not above
// the bit's clocks, and at least 1.
fn spread(clocks: u32) -> u32 {
    let power = (clocks / 2 + 1).next_power_of_two();
    (power / 32).max(1)
}

// An end of a line: a format, and the times that its settings give.
#[derive(Clone, Copy)]
pub(crate) struct End {
    pub(crate) shape: Shape,
    pub(crate) gear: Gear,
    // where each bit begins, and at 13 where the last one would end
    pub(crate) starts: [u32; 14],
    pub(crate) samples: [[u32; 3]; 12],
    pub(crate) frame_clocks: u32,
}

impl End {
    pub(crate) fn new(shape: Shape, gear: Gear) -> End {
        End {
            shape,
            gear,
            starts: array::from_fn(|bit| gear.start(bit)),
            samples: array::from_fn(|bit| gear.samples(bit)),
            frame_clocks: gear.start(shape.bits()),
        }
    }

    // An end of this format with short bits, so that many cases can be run.
    pub(crate) fn short(dice: &mut Dice, shape: Shape) -> End {
        let gear = if !shape.address && dice.one_in(4) {
            Gear::Port { divider: 1 }
        } else {
            Gear::Usart {
                divider: dice.below(5).saturating_add(3),
                modulator: dice.byte(),
            }
        };
        End::new(shape, gear)
    }

    // The clocks before a bit, 0 past the last one.
    pub(crate) fn start(&self, bit: usize) -> u32 {
        self.starts.get(bit).copied().unwrap_or(0)
    }

    // The sample clocks of a bit, 0 past the last one.
    pub(crate) fn sampled(&self, bit: usize) -> [u32; 3] {
        self.samples.get(bit).copied().unwrap_or([0; 3])
    }

    pub(crate) fn last_sample(&self, bit: usize) -> u32 {
        let [_, _, last] = self.sampled(bit);
        last
    }

    // The level at a clock of the frame of a character, mark past its end.
    pub(crate) fn level(&self, character: u16, clock: u32) -> Level {
        let ends = self.starts.iter().skip(1);
        let bit = ends.take_while(|end| **end <= clock).count();
        self.shape.level(character, bit)
    }
}

impl TryFrom<End> for Timing {
    type Error = Refusal;

    fn try_from(end: End) -> Result<Timing, Refusal> {
        let format = Format::try_from(end.shape)?;
        match end.gear {
            Gear::Port { divider } => Port::timing(format, port::Settings::new(divider)?),
            Gear::Usart { divider, modulator } => {
                Usart::timing(format, usart::Settings::new(divider, modulator)?)
            }
        }
    }
}

// The dice of a case and the end that they make, for each format in turn, with the library's times for it.
pub(crate) fn some_end(seed: u16) -> Result<(Dice, End, Timing), Refusal> {
    let mut dice = Dice::new(u32::from(seed));
    let end = End::short(&mut dice, Shape::numbered(seed % 24));
    let timing = Timing::try_from(end)?;
    Ok((dice, end, timing))
}

// The two ends of a line.
#[derive(Clone, Copy)]
pub(crate) struct Pair {
    pub(crate) sender: End,
    pub(crate) receiver: End,
}

impl Pair {
    // Short ends of formats that agree, but once in so many times the receiver's is any.
    pub(crate) fn short(dice: &mut Dice, number: u16, strange: u16) -> Pair {
        let shape = Shape::numbered(number % 24);
        let other = shape.partner(dice, strange);
        Pair {
            sender: End::short(dice, shape),
            receiver: End::short(dice, other),
        }
    }

    pub(crate) fn agrees(&self) -> bool {
        self.sender.shape.agrees(self.receiver.shape)
    }

    // The library's times for both.
    pub(crate) fn timings(&self) -> Result<(Timing, Timing), Refusal> {
        let from = Timing::try_from(self.sender)?;
        let to = Timing::try_from(self.receiver)?;
        Ok((from, to))
    }
}

impl fmt::Display for End {
    fn fmt<W: fmt::Write>(&self, f: &mut fmt::Formatter<W>) -> fmt::Result {
        write!(f, "{} {:?}", self.shape, self.gear)
    }
}

impl fmt::Display for Pair {
    fn fmt<W: fmt::Write>(&self, f: &mut fmt::Formatter<W>) -> fmt::Result {
        write!(f, "sender {}, receiver {}", self.sender, self.receiver)
    }
}
