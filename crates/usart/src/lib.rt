// The USART's settings, the times that they give, and the settings that are built into locks.

#![tactic(auto)]

pub mod built;
pub mod settings;
pub mod usart;

pub use built::{ROWS, Row, built_in};
pub use settings::Settings;
pub use usart::Usart;
