// In which form a picture is written and what is found in a capture, each by its word.
ghost use Rattle.std.specs.Result.{result_ok};
ghost use Rattle.words.specs.Names.{NamedBy};
ghost use Rattle.words.specs.Styles.{picture_word, found_word};

use super::unnamed::Unnamed;
use std::str::FromStr;

// A picture: its runs of equal levels, a byte for each clock, or a file for a waveform viewer.
#[derive(Clone, Copy, PartialEq, Eq, Debug, Default)]
pub enum PictureStyle {
    #[default]
    Runs,
    Bytes,
    Vcd,
}

// What a scan finds: as text, or a character to a line as a number.
#[derive(Clone, Copy, PartialEq, Eq, Debug, Default)]
pub enum FoundStyle {
    #[default]
    Text,
    Hex,
    Decimal,
}

impl FromStr for PictureStyle {
    type Err = Unnamed;

    ghost from_str_gives = { λ word r. NamedBy picture_word word (result_ok r) };

    fn from_str(word: &str) -> Result<PictureStyle, Unnamed> {
        match word {
            "runs" => Ok(PictureStyle::Runs),
            "bytes" => Ok(PictureStyle::Bytes),
            "vcd" => Ok(PictureStyle::Vcd),
            _ => Err(Unnamed),
        }
    }
}

impl FromStr for FoundStyle {
    type Err = Unnamed;

    ghost from_str_gives = { λ word r. NamedBy found_word word (result_ok r) };

    fn from_str(word: &str) -> Result<FoundStyle, Unnamed> {
        match word {
            "text" => Ok(FoundStyle::Text),
            "hex" => Ok(FoundStyle::Hex),
            "decimal" => Ok(FoundStyle::Decimal),
            _ => Err(Unnamed),
        }
    }
}
