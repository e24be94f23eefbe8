// The two levels of a line, the byte that stands for each in a picture, and the binary digit.
ghost use Rattle.std.specs.Prelude.{◌≡◌};
ghost use Rattle.line.specs.Levels.{byte_of, level_of, level_of_byte};

use super::refusal::Refusal;

#[derive(Clone, Copy, PartialEq, Eq, Debug)]
pub enum Level {
    Space = 0,
    Mark = 1,
}

impl From<Level> for u8 {
    ghost from_gives = { λ level byte. byte ≡ byte_of level };

    fn from(level: Level) -> u8 {
        level as u8
    }
}

impl TryFrom<u8> for Level {
    type Error = Refusal;

    ghost try_from_gives = { λ byte result. result ≡ level_of_byte byte };

    fn try_from(byte: u8) -> Result<Level, Refusal> {
        match byte {
            0 => Ok(Level::Space),
            1 => Ok(Level::Mark),
            _ => Err(Refusal::NotALevel),
        }
    }
}

impl Level {
    // The level of a binary digit. It is no `From`, since only 0 and 1 are digits; any other number counts as 1.
    pub fn from_digit(digit: u16) -> Level
        ensures { result ≡ level_of digit }
    {
        match digit {
            0 => Level::Space,
            _ => Level::Mark,
        }
    }
}
