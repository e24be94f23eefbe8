// The entries that come of a scan or over a link, for a person to read.
ghost use Rattle.std.specs.Prelude.{◌≡◌, MatchOption, if◌then◌else◌};
ghost use Rattle.std.specs.Int.{IsInRange, is_in_range, IsOutOfRange};

use super::flags::Flags;
use std::io;

// The character that a byte stands for, if it can be printed.
pub(crate) fn printable(byte: u8) -> Option<char>
    ensures { MatchOption result (IsOutOfRange 0x20 0x7e byte) (λ shown. IsInRange 0x20 0x7e byte × (shown ≡ byte)) }
{
    (byte == b' ' || byte.is_ascii_graphic()).then_some(char::from(byte))
}

// A character as a person reads it: itself where it can be printed, and a dot where not.
pub fn readable(character: u16) -> char
    ensures { result ≡ (if is_in_range 0x20 0x7e character then character else 0x2e) }
{
    u8::try_from(character)
        .ok()
        .and_then(printable)
        .unwrap_or('.')
}

// How many entries carry a flag.
pub(crate) fn flagged(entries: &[(u16, u8)]) -> usize {
    entries.iter().filter(|(_, bits)| *bits != 0).count()
}

// The characters of the entries, as text.
pub(crate) fn print_text(rt: &impl Print, entries: &[(u16, u8)]) -> io::Result<()> {
    print!(rt; "  ")?;
    for (character, _) in entries {
        print!(rt; "{}", readable(*character))?;
    }
    println!(rt; "")
}

// The entries that carry a flag, one to a line.
pub(crate) fn print_flagged(rt: &impl Print, entries: &[(u16, u8)]) -> io::Result<()> {
    println!(rt; "  entry  character  flags")?;
    for (number, (character, bits)) in (1u32..).zip(entries) {
        if *bits != 0 {
            let shown = readable(*character);
            let flags = Flags(*bits);
            println!(rt; "  {number:>5}  {character:>4X}h '{shown}'  {flags}")?;
        }
    }
    Ok(())
}
