// What any sender is.
ghost use Rattle.std.specs.Prelude.{◌≡◌, slice_index};
ghost use Rattle.ends.specs.Sender.{SenderState, SoundSender, load_answer, after_load, sent, after_send};

use line::{Format, Level, Refusal};

pub trait Sender {
    ghost meaning: { Self → SenderState };

    fn format(&self) -> Format
        ensures { result ≡ (meaning self.now).format };

    // How many clocks a bit of a frame lasts; 0 past the thirteenth.
    fn bit_length(&self, bit: usize) -> u32
        ensures { result ≡ slice_index (meaning self.now).lengths bit };

    // A character joins those that wait.
    fn load(&mut self, character: u16) -> Result<(), Refusal>
        ensures answer { result ≡ load_answer (meaning self.old) character }
        ensures state { meaning self.new ≡ after_load (meaning self.old) character };

    // One clock: the level on the line from here to the next.
    fn clock(&mut self) -> Level
        ensures level { result ≡ sent (meaning self.old) }
        ensures state { meaning self.new ≡ after_send (meaning self.old) };

    ghost sound: { (s : Self) → SoundSender (meaning s) };
}
