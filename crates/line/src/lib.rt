// The words of a serial line: levels, formats, characters, frames and refusals.

#![tactic(auto)]

pub mod format;
pub mod level;
pub mod refusal;

pub use format::{DataBits, Format, Parity, StopBits};
pub use level::Level;
pub use refusal::Refusal;
