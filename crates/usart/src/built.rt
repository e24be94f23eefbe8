// The settings that are built into locks, for the two clocks they have.
ghost use Rattle.std.specs.Prelude.{◌≡◌, ℕ, ◌<◌, Some, None, slice_index_or};
ghost use Rattle.usart.specs.Table.{rows, blank, Has, found, pair, lookup, Distinct, InRange};

use super::settings::Settings;

#[derive(Clone, Copy, PartialEq, Eq, Debug)]
pub struct Row {
    // in hertz
    pub clock: u32,
    pub baud: u32,
    pub divider: u16,
    pub modulator: u8,
}

// Written out in plain numbers, as `Row` is public and has been: a constant cannot call `Settings::new`.
pub const ROWS: [Row; 22] = [
    Row {
        clock: 32768,
        baud: 75,
        divider: 436,
        modulator: 0xff,
    },
    Row {
        clock: 32768,
        baud: 110,
        divider: 297,
        modulator: 0xff,
    },
    Row {
        clock: 32768,
        baud: 150,
        divider: 218,
        modulator: 0x55,
    },
    Row {
        clock: 32768,
        baud: 300,
        divider: 109,
        modulator: 0x22,
    },
    Row {
        clock: 32768,
        baud: 600,
        divider: 54,
        modulator: 0xd5,
    },
    Row {
        clock: 32768,
        baud: 1200,
        divider: 27,
        modulator: 0x03,
    },
    Row {
        clock: 32768,
        baud: 2400,
        divider: 13,
        modulator: 0x6b,
    },
    Row {
        clock: 32768,
        baud: 4800,
        divider: 6,
        modulator: 0x6f,
    },
    Row {
        clock: 32768,
        baud: 9600,
        divider: 3,
        modulator: 0x4a,
    },
    Row {
        clock: 1048576,
        baud: 75,
        divider: 13981,
        modulator: 0xff,
    },
    Row {
        clock: 1048576,
        baud: 110,
        divider: 9532,
        modulator: 0xff,
    },
    Row {
        clock: 1048576,
        baud: 150,
        divider: 6990,
        modulator: 0xff,
    },
    Row {
        clock: 1048576,
        baud: 300,
        divider: 3495,
        modulator: 0x00,
    },
    Row {
        clock: 1048576,
        baud: 600,
        divider: 1747,
        modulator: 0xff,
    },
    Row {
        clock: 1048576,
        baud: 1200,
        divider: 873,
        modulator: 0xff,
    },
    Row {
        clock: 1048576,
        baud: 2400,
        divider: 436,
        modulator: 0xff,
    },
    Row {
        clock: 1048576,
        baud: 4800,
        divider: 218,
        modulator: 0x55,
    },
    Row {
        clock: 1048576,
        baud: 9600,
        divider: 109,
        modulator: 0x03,
    },
    Row {
        clock: 1048576,
        baud: 19200,
        divider: 54,
        modulator: 0x6b,
    },
    Row {
        clock: 1048576,
        baud: 38400,
        divider: 27,
        modulator: 0x03,
    },
    Row {
        clock: 1048576,
        baud: 76800,
        divider: 13,
        modulator: 0x6b,
    },
    Row {
        clock: 1048576,
        baud: 115200,
        divider: 9,
        modulator: 0x08,
    },
];

// The settings that are built in for this clock and baud rate, or none.
pub fn built_in(clock: u32, baud: u32) -> Option<Settings>
    ensures row { (k : ℕ) → k < 22 → Has (slice_index_or rows k blank) clock baud → found result ≡ Some (pair (slice_index_or rows k blank)) }
    ensures none { ((k : ℕ) → k < 22 → Has (slice_index_or rows k blank) clock baud → ⊥) → found result ≡ None }
    ensures distinct { Distinct }
    ensures ranges { InRange }
{
    let row = row_of(clock, baud)?;
    Some(Settings {
        divider: row.divider,
        modulator: row.modulator,
    })
}

// The row with this clock and baud rate.
fn row_of(clock: u32, baud: u32) -> Option<Row>
    ensures { result ≡ lookup rows clock baud }
{
    ROWS.iter()
        .find(|row| row.clock == clock && row.baud == baud)
        .copied()
}
