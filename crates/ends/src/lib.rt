// What any sender and any receiver mean, and the two that run on a table of times.

#![tactic(auto)]

pub mod bare_receiver;
pub mod bare_sender;
pub mod doing;
pub mod kind;
pub mod passing;
pub mod receiver;
pub mod receiving;
pub mod runs;
pub mod samples;
pub mod sender;
pub mod sending;
pub mod shift;
pub mod timing;

pub use bare_receiver::BareReceiver;
pub use bare_sender::BareSender;
pub use kind::Kind;
pub use receiver::Receiver;
pub use receiving::{BREAK, FRAMING, OVERRUN, PARITY};
pub use runs::{hear, send};
pub use sender::Sender;
pub use timing::Timing;
