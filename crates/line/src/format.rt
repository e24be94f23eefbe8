// Formats: how a character is put into a frame.
ghost use Rattle.std.specs.Prelude.{◌≡◌, ℕ, ◌+◌, ◌^◌, ◌<◌, ◌≤◌, replicate, MatchBool, MatchResult};
ghost use Rattle.line.specs.Levels.{number, low_bits};
ghost use Rattle.line.specs.Frames.{data_count, width, first_stop, frame_bits, parity_bits, parity_count, stop_count, frame};
ghost use Rattle.line.specs.declared.level.Level.TheVariants.{Mark};
ghost use Rattle.line.specs.Formats.{NumberedBy, address_count, parity_number, Numbers, Agree, agree};

use super::refusal::Refusal;

#[derive(Clone, Copy, PartialEq, Eq, Debug)]
pub enum DataBits {
    Seven = 7,
    Eight = 8,
}

#[derive(Clone, Copy, PartialEq, Eq, Debug)]
pub enum Parity {
    Absent = 0,
    Odd = 1,
    Even = 2,
}

#[derive(Clone, Copy, PartialEq, Eq, Debug)]
pub enum StopBits {
    One = 1,
    Two = 2,
}

#[derive(Clone, Copy, PartialEq, Eq, Debug)]
pub struct Format {
    pub size: DataBits,
    // whether a character carries an address bit above its data bits
    pub address: bool,
    pub parity: Parity,
    pub stops: StopBits,
}

impl From<DataBits> for u8 {
    ghost from_gives = { λ size count. count ≡ data_count size };

    fn from(size: DataBits) -> u8 {
        size as u8
    }
}

impl TryFrom<u8> for DataBits {
    type Error = Refusal;

    ghost try_from_gives = { λ count result. NumberedBy data_count count result };

    fn try_from(count: u8) -> Result<DataBits, Refusal> {
        match count {
            7 => Ok(DataBits::Seven),
            8 => Ok(DataBits::Eight),
            _ => Err(Refusal::OutOfRange),
        }
    }
}

impl From<StopBits> for u8 {
    ghost from_gives = { λ stops count. count ≡ stop_count stops };

    fn from(stops: StopBits) -> u8 {
        stops as u8
    }
}

// 0 is none, 1 odd, 2 even.
impl TryFrom<u8> for Parity {
    type Error = Refusal;

    ghost try_from_gives = { λ number result. NumberedBy parity_number number result };

    fn try_from(number: u8) -> Result<Parity, Refusal> {
        match number {
            0 => Ok(Parity::Absent),
            1 => Ok(Parity::Odd),
            2 => Ok(Parity::Even),
            _ => Err(Refusal::OutOfRange),
        }
    }
}

impl TryFrom<u8> for StopBits {
    type Error = Refusal;

    ghost try_from_gives = { λ count result. NumberedBy stop_count count result };

    fn try_from(count: u8) -> Result<StopBits, Refusal> {
        match count {
            1 => Ok(StopBits::One),
            2 => Ok(StopBits::Two),
            _ => Err(Refusal::OutOfRange),
        }
    }
}

// Whether so many address bits are one. It is no `TryFrom`, since both that and `bool` are the library's.
fn address_bit(count: u8) -> Result<bool, Refusal>
    ensures { NumberedBy address_count count result }
{
    match count {
        0 => Ok(false),
        1 => Ok(true),
        _ => Err(Refusal::OutOfRange),
    }
}

impl Format {
    // The format with so many data, address and stop bits, and parity 0 for none, 1 for odd, 2 for even. It is no `TryFrom`: as a tuple
    // the four numbers would not say which is which.
    pub fn from_numbers(
        data_bits: u8,
        address_bits: u8,
        parity: u8,
        stop_bits: u8,
    ) -> Result<Format, Refusal>
        ensures { MatchResult result (λ f. Numbers f data_bits address_bits parity stop_bits) (λ e. (e ≡ Refusal.OutOfRange) × ((f : Format) → Numbers f data_bits address_bits parity stop_bits → ⊥)) }
    {
        Ok(Format {
            size: DataBits::try_from(data_bits)?,
            address: address_bit(address_bits)?,
            parity: Parity::try_from(parity)?,
            stops: StopBits::try_from(stop_bits)?,
        })
    }

    // Whether two formats agree, which they do where they differ in nothing but the stop bits.
    pub fn agrees(self, other: Format) -> bool
        ensures test { result ≡ agree self other }
        ensures cases { MatchBool result (Agree self other) (Agree self other → ⊥) }
    {
        self.size == other.size && self.address == other.address && self.parity == other.parity
    }

    // How many bits a character has.
    pub fn width(self) -> usize
        ensures { result ≡ width self }
    {
        usize::from(u8::from(self.size)) + usize::from(self.address)
    }

    // The number of the first stop bit, the start bit being bit 0.
    pub fn first_stop(self) -> usize
        ensures { result ≡ first_stop self }
    {
        match self.parity {
            Parity::Absent => 1 + self.width(),
            Parity::Odd | Parity::Even => 2 + self.width(),
        }
    }

    // How many bits a frame has.
    pub fn bits(self) -> usize
        ensures { result ≡ frame_bits self }
    {
        self.first_stop() + usize::from(u8::from(self.stops))
    }

    // The number of characters: each is below it.
    pub fn characters(self) -> u16
        ensures value { result ≡ 2 ^ width self }
        ensures bound { result ≤ 512 }
    {
        1 << self.width()
    }

    // The parity bit of a character as a binary digit, mark being 1; 0 where the format has none.
    pub fn parity_bit(self, character: u16) -> u16
        ensures value { result ≡ number (parity_bits self.parity (low_bits (width self) character)) }
        ensures bound { result < 2 }
    {
        let marks = (character % self.characters()).count_ones();
        match self.parity {
            Parity::Absent => 0,
            Parity::Odd => u16::from(marks % 2 == 0),
            Parity::Even => u16::from(marks % 2 == 1),
        }
    }

    // How many values the parity bit has: one where there is none.
    pub fn parity_values(self) -> u16
        ensures value { result ≡ 2 ^ parity_count self.parity }
        ensures bound { result ≤ 2 }
    {
        match self.parity {
            Parity::Absent => 1,
            Parity::Odd | Parity::Even => 2,
        }
    }

    fn stop_digits(self) -> u16
        ensures value { result ≡ number (replicate (stop_count self.stops) Mark) }
        ensures bound { result ≤ 3 }
    {
        match self.stops {
            StopBits::One => 1,
            StopBits::Two => 3,
        }
    }

    // The frame of a character as binary digits, bit 0 of the frame being the least significant.
    pub fn frame(self, character: u16) -> u16
        ensures value { result ≡ number (frame self character) }
        ensures bound { result < 2 ^ 13 }
    {
        let characters = self.characters();
        let above = self.parity_bit(character) + self.parity_values() * self.stop_digits();
        2 * (character % characters + characters * above)
    }
}
