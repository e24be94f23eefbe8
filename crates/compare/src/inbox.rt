// The entries that a receiver has taken down and nobody has read.
use super::hearing::{Entry, OVERRUN};
use std::alloc::{AllocError, Global};
use std::collections::VecDeque;

#[derive(Drop)]
pub(crate) struct Inbox {
    unread: VecDeque<Entry>,
    capacity: usize,
}

impl Inbox {
    pub(crate) fn new(heap: Global, capacity: usize) -> Inbox {
        Inbox {
            unread: VecDeque::new(heap),
            capacity,
        }
    }

    pub(crate) fn arrive(&mut self, entry: Entry) -> Result<(), AllocError> {
        let mut all = entry;
        if self.unread.len() >= self.capacity {
            if let Some(lost) = self.unread.pop_back() {
                all.flags |= lost.flags | OVERRUN;
            }
        }
        self.unread.push_back(all)?;
        Ok(())
    }

    pub(crate) fn read(&mut self) -> Option<Entry> {
        self.unread.pop_front()
    }
}
