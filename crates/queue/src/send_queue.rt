// A queue in front of a sender, which is a sender too.
ghost use Rattle.std.specs.Prelude.{◌≡◌, ◌<◌, ◌≤◌, [], length};
ghost use Rattle.queue.specs.Queues.{queued_to};
ghost use Rattle.queue.specs.Soundness.{sound_queued};

use super::ring::Ring;
use ends::Sender;
use line::{Format, Level, Refusal};

#[derive(Drop)]
pub struct SendQueue<S: Sender> {
    pub(crate) below: S,
    pub(crate) held: Ring<u16>,
    ghost few: { length held ≤ 16 },
}

impl<S: Sender> SendQueue<S> {
    pub fn new(below: S) -> SendQueue<S>
        ensures below { result.below ≡ below }
        ensures meaning { queued_to (S.meaning result.below) result.held ≡ queued_to (S.meaning below) [] }
    {
        SendQueue {
            below,
            held: Ring::new(0),
        }
    }

    // Hands down what fits, so that a character is held only where the sender below is full.
    fn hand_down(&mut self)
        ensures same { queued_to (S.meaning self.new.below) self.new.held ≡ queued_to (S.meaning self.old.below) self.old.held }
        ensures full { 0 < length self.new.held → length (S.meaning self.new.below).waiting ≡ (S.meaning self.new.below).capacity }
    {
        while let Some(character) = self.held.front() {
            // `load` lets no wider character in, but only the cut shows it
            let characters = self.below.format().characters();
            if self.below.load(character % characters).is_err() {
                return;
            }
            self.held.pop_front();
        }
    }
}

impl<S: Sender> Sender for SendQueue<S> {
    ghost meaning = { λ q. queued_to (S.Sender.meaning q.below) q.held };

    ghost sound = { λ q. sound_queued (S.Sender.meaning q.below) q.held q.few (S.Sender.sound q.below) };

    fn format(&self) -> Format {
        self.below.format()
    }

    fn bit_length(&self, bit: usize) -> u32 {
        self.below.bit_length(bit)
    }

    fn load(&mut self, character: u16) -> Result<(), Refusal> {
        if character >= self.below.format().characters() {
            return Err(Refusal::TooWide);
        }
        self.hand_down();
        if self.held.is_full() {
            return Err(Refusal::Full);
        }
        self.held.push_back(character);
        Ok(())
    }

    fn clock(&mut self) -> Level {
        self.hand_down();
        self.below.clock()
    }
}
