// The laptop's service port: its settings, and the times that they give.

#![tactic(auto)]

pub mod port;
pub mod settings;

pub use port::Port;
pub use settings::Settings;
