// What the settings sheet is made of: the divider a laptop takes for a baud rate, and how far a clock may be off before Fit no longer passes.

#![tactic(auto)]

pub mod divider;
pub mod tolerance;
pub mod ways;

pub use divider::nearest_divider;
pub use link::Rates;
pub use tolerance::{Off, Tolerance};
pub use ways::{Clocked, Way};
