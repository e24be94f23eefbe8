// The USART's eight registers over its two ends.

#![tactic(auto)]

pub mod address;
pub mod bits;
pub mod chip;
pub mod mode;
pub mod pair;
pub mod rate;
pub mod receive;
pub mod transmit;

pub use chip::{Chip, Interrupts};
