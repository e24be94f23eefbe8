// The commands of the bench, each by its word.
ghost use Rattle.std.specs.Result.{result_ok};
ghost use Rattle.words.specs.Names.{NamedBy};
ghost use Rattle.words.specs.Commands.{command_word};

use super::unnamed::Unnamed;
use std::str::FromStr;

#[derive(Clone, Copy, PartialEq, Eq, Debug)]
pub enum Command {
    Sheet,
    Fit,
    Draw,
    Scan,
    Table,
    Demo,
    Link,
    Chip,
}

impl FromStr for Command {
    type Err = Unnamed;

    ghost from_str_gives = { λ word r. NamedBy command_word word (result_ok r) };

    fn from_str(word: &str) -> Result<Command, Unnamed> {
        match word {
            "sheet" => Ok(Command::Sheet),
            "fit" => Ok(Command::Fit),
            "draw" => Ok(Command::Draw),
            "scan" => Ok(Command::Scan),
            "table" => Ok(Command::Table),
            "demo" => Ok(Command::Demo),
            "link" => Ok(Command::Link),
            "chip" => Ok(Command::Chip),
            _ => Err(Unnamed),
        }
    }
}
