// What the bench shows of its parts: a record drawn and scanned, a lock joined to laptops, the table of settings, a chip driven by firmware, the settings sheet.

#![tactic(auto)]

mod bits;
pub mod entries;
pub mod firmware;
pub mod flags;
pub mod joining;
pub mod levels;
pub mod named_ends;
pub mod records;
pub mod registers;
pub mod settings_sheet;
pub mod tables;
mod tenths;
pub mod verdicts;

pub use entries::readable;
pub use firmware::drive;
pub use flags::Flags;
pub use joining::{LAPTOP_HERTZ, join};
pub use levels::level_name;
pub use named_ends::{port_timing, usart_timing};
pub use records::demo;
pub use settings_sheet::print_sheet;
pub use tables::print_table;
pub use verdicts::Told;

// The record that the bench takes where it is given none.
pub const SAMPLE: &str = "2026-11-17 08:59 opened, key 4";
