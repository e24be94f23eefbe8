// The names of formats, as 8N1: data bits, an A where there is an address bit, parity, stop bits.
ghost use Rattle.std.specs.Prelude.{MatchOption};
ghost use Rattle.line.specs.declared.format.Format.{Format};
ghost use Rattle.words.specs.Names.{NamedBy, name_of, size_letter, parity_letter, stops_letter, Form};

use line::{DataBits, Format, Parity, StopBits};

// The format that has this name, or none. No `FromStr` or `TryFrom`: neither the trait nor `Format` is of this crate.
pub fn format_named(name: &[u8]) -> Option<Format>
    ensures { NamedBy name_of name.now result }
{
    match name {
        [size, parity, stops] => form(*size, false, *parity, *stops),
        [size, b'A', parity, stops] => form(*size, true, *parity, *stops),
        _ => None,
    }
}

// The format whose name has these letters, with or without an address bit.
fn form(size: u8, address: bool, parity: u8, stops: u8) -> Option<Format>
    ensures { MatchOption result ((f : Format) → Form f size address parity stops → ⊥) (λ f. Form f size address parity stops) }
{
    Some(Format {
        size: size_of(size)?,
        address,
        parity: parity_of(parity)?,
        stops: stops_of(stops)?,
    })
}

fn size_of(letter: u8) -> Option<DataBits>
    ensures { NamedBy size_letter letter result }
{
    DataBits::try_from(letter.checked_sub(b'0')?).ok()
}

fn parity_of(letter: u8) -> Option<Parity>
    ensures { NamedBy parity_letter letter result }
{
    match letter {
        b'N' => Some(Parity::Absent),
        b'O' => Some(Parity::Odd),
        b'E' => Some(Parity::Even),
        _ => None,
    }
}

fn stops_of(letter: u8) -> Option<StopBits>
    ensures { NamedBy stops_letter letter result }
{
    StopBits::try_from(letter.checked_sub(b'0')?).ok()
}
