// Queues of sixteen, in front of any sender and behind any receiver.

#![tactic(auto)]

pub mod receive_queue;
pub mod ring;
pub mod send_queue;

pub use receive_queue::ReceiveQueue;
pub use send_queue::SendQueue;
