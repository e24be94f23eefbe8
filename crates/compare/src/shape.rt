// Formats, and the level that each bit of a frame has.
use super::dice::Dice;
use super::levels::level_of;
use line::{DataBits, Format, Level, Parity, Refusal, StopBits};
use std::fmt;

// A format in the library's words. What they mean is written apart from it.
#[derive(Clone, Copy, PartialEq)]
pub(crate) struct Shape {
    pub(crate) data: DataBits,
    pub(crate) address: bool,
    pub(crate) parity: Parity,
    pub(crate) stops: StopBits,
}

impl Shape {
    // Each of the 24 has a number below 24.
    pub(crate) fn numbered(number: u16) -> Shape {
        Shape {
            data: if number % 2 == 0 {
                DataBits::Seven
            } else {
                DataBits::Eight
            },
            address: number / 2 % 2 == 1,
            parity: match number / 4 % 3 {
                0 => Parity::Absent,
                1 => Parity::Odd,
                _ => Parity::Even,
            },
            stops: if number / 12 % 2 == 0 {
                StopBits::One
            } else {
                StopBits::Two
            },
        }
    }

    // A format for the other end: it agrees, but once in so many times it is any.
    pub(crate) fn partner(self, dice: &mut Dice, strange: u16) -> Shape {
        if dice.one_in(strange) {
            return Shape::numbered(dice.below(24));
        }
        let stops = if dice.one_in(2) {
            StopBits::One
        } else {
            StopBits::Two
        };
        Shape { stops, ..self }
    }

    pub(crate) fn agrees(self, other: Shape) -> bool {
        let stops = self.stops;
        self == Shape { stops, ..other }
    }

    pub(crate) fn data_bits(self) -> u8 {
        match self.data {
            DataBits::Seven => 7,
            DataBits::Eight => 8,
        }
    }

    // How many values the data bits have.
    pub(crate) fn values(self) -> u16 {
        1u16 << (self.data_bits() % 16)
    }

    // What a character has in its data bits.
    pub(crate) fn cut(self, character: u16) -> u8 {
        let [low, _] = character.to_le_bytes();
        match self.data {
            DataBits::Seven => low % 128,
            DataBits::Eight => low,
        }
    }

    pub(crate) fn stop_bits(self) -> u8 {
        match self.stops {
            StopBits::One => 1,
            StopBits::Two => 2,
        }
    }

    pub(crate) fn width(self) -> usize {
        usize::from(self.data_bits()) + usize::from(self.address)
    }

    // The number of the first stop bit.
    pub(crate) fn first_stop(self) -> usize {
        let parity = match self.parity {
            Parity::Absent => 0,
            Parity::Odd | Parity::Even => 1,
        };
        1 + usize::from(self.data_bits()) + usize::from(self.address) + parity
    }

    pub(crate) fn bits(self) -> usize {
        self.first_stop()
            .saturating_add(usize::from(self.stop_bits()))
    }

    // How many characters there are.
    pub(crate) fn characters(self) -> u16 {
        1u16 << (self.width() % 16)
    }

    // A character of the format, but one in so many too wide, or none where that is 0.
    pub(crate) fn character(self, dice: &mut Dice, wide: u16) -> u16 {
        let inside = dice.below(self.characters());
        if dice.one_in(wide) {
            inside.saturating_add(self.characters())
        } else {
            inside
        }
    }

    // The level of a bit in the frame of a character that is not too wide.
    pub(crate) fn level(self, character: u16, bit: usize) -> Level {
        if bit == 0 {
            return Level::Space;
        }
        let above = bit - 1;
        if above < self.width() {
            return level_of(u32::from(character >> (above % 16)));
        }
        let ones = character.count_ones();
        match self.parity {
            Parity::Odd if above == self.width() => level_of(1 + ones),
            Parity::Even if above == self.width() => level_of(ones),
            _ => Level::Mark,
        }
    }
}

// Through numbers, so that what the library makes of those is compared as well.
impl TryFrom<Shape> for Format {
    type Error = Refusal;

    fn try_from(shape: Shape) -> Result<Format, Refusal> {
        let parity = match shape.parity {
            Parity::Absent => 0,
            Parity::Odd => 1,
            Parity::Even => 2,
        };
        let address = u8::from(shape.address);
        Format::from_numbers(shape.data_bits(), address, parity, shape.stop_bits())
    }
}

// As 8N1, with A before the parity where there is an address bit.
impl fmt::Display for Shape {
    fn fmt<W: fmt::Write>(&self, f: &mut fmt::Formatter<W>) -> fmt::Result {
        let data = self.data_bits();
        let address = if self.address { "A" } else { "" };
        let parity = match self.parity {
            Parity::Absent => "N",
            Parity::Odd => "O",
            Parity::Even => "E",
        };
        let stops = self.stop_bits();
        write!(f, "{data}{address}{parity}{stops}")
    }
}
