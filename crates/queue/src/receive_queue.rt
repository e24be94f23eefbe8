// A queue behind a receiver, which is a receiver too.
ghost use Rattle.std.specs.Prelude.{◌≡◌, ◌<◌, ◌≤◌, [], length};
ghost use Rattle.queue.specs.Queues.{queued_from};
ghost use Rattle.std.proofs.Common.{rules};

use super::ring::Ring;
use ends::Receiver;
use line::{Format, Level, Refusal};

#[derive(Drop)]
pub struct ReceiveQueue<R: Receiver> {
    pub(crate) below: R,
    // characters and their flags
    pub(crate) held: Ring<(u16, u8)>,
    ghost few: { length held ≤ 16 },
}

impl<R: Receiver> ReceiveQueue<R> {
    pub fn new(below: R) -> ReceiveQueue<R>
        ensures below { result.below ≡ below }
        ensures meaning { queued_from (R.meaning result.below) result.held ≡ queued_from (R.meaning below) [] }
    {
        ReceiveQueue {
            below,
            held: Ring::new((0, 0)),
        }
    }

    // Takes over what is unread below, so that an entry is left there only where the queue is full.
    fn take_over(&mut self)
        ensures same { queued_from (R.meaning self.new.below) self.new.held ≡ queued_from (R.meaning self.old.below) self.old.held }
        ensures emptied { length self.new.held < 16 → (R.meaning self.new.below).unread ≡ [] }
    {
        while !self.held.is_full() {
            let Ok(entry) = self.below.read() else {
                return;
            };
            self.held.push_back(entry);
        }
    }
}

impl<R: Receiver> Receiver for ReceiveQueue<R> {
    ghost meaning = { λ q. queued_from (R.Receiver.meaning q.below) q.held };

    ghost sound = { Prim.search rules };

    fn format(&self) -> Format {
        self.below.format()
    }

    fn sample_clock(&self, sample: usize) -> u32 {
        self.below.sample_clock(sample)
    }

    // laid out in the loop of a link's run, which takes a quarter less time so
    #[inline(always)]
    fn clock(&mut self, level: Level) {
        self.take_over();
        self.below.clock(level);
    }

    fn read(&mut self) -> Result<(u16, u8), Refusal> {
        match self.held.pop_front() {
            Some(entry) => Ok(entry),
            None => self.below.read(),
        }
    }
}
