// What any receiver is.
ghost use Rattle.std.specs.Prelude.{◌≡◌, ◌+◌, ◌*◌, slice_index};
ghost use Rattle.ends.specs.Receiver.{ReceiverState, SoundReceiver, after_clock, after_read, oldest};

use line::{Format, Level, Refusal};

pub trait Receiver {
    ghost meaning: { Self → ReceiverState };

    fn format(&self) -> Format
        ensures { result ≡ (meaning self.now).format };

    // The clock of a sample, counted from the frame's first clock; bit k has the samples 3k, 3k + 1 and 3k + 2. 0 past the last.
    fn sample_clock(&self, sample: usize) -> u32
        ensures { result ≡ slice_index (meaning self.now).samples sample };

    // One clock, with the level that stands on the line.
    fn clock(&mut self, level: Level)
        ensures { meaning self.new ≡ after_clock (meaning self.old) level };

    // The oldest unread character and its flags.
    fn read(&mut self) -> Result<(u16, u8), Refusal>
        ensures answer { result ≡ oldest (meaning self.old).unread }
        ensures state { meaning self.new ≡ after_read (meaning self.old) };

    ghost sound: { (r : Self) → SoundReceiver (meaning r) };
}
