// A sender and a receiver joined by a line, what is done to them, and which rates fit.

#![tactic(auto)]

pub mod act;
pub mod joined;
mod pair;
pub mod rates;

pub use act::{Act, Answer};
pub use joined::Link;
pub use rates::{MOST_RATE, Rates, Verdict, fit};
