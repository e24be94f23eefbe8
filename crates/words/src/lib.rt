// What a person writes for the bench to read.

#![tactic(auto)]

pub mod commands;
pub mod format_names;
pub mod numbers;
pub mod options;
pub mod styles;
pub mod unnamed;

pub use commands::Command;
pub use format_names::format_named;
pub use numbers::number_written;
pub use options::{Takes, Words, Wrong};
pub use styles::{FoundStyle, PictureStyle};
pub use unnamed::Unnamed;
