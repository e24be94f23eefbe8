// Many clocks of an end, one after the other.
ghost use Rattle.std.specs.Prelude.{◌≡◌, ℕ, length};
ghost use Rattle.line.specs.declared.level.Level.TheVariants.{Mark};
ghost use Rattle.ends.specs.Receiver.{idle};
ghost use Rattle.ends.specs.Runs.{after_sends, spoken, Sends, after_levels, Hears};

use super::receiver::Receiver;
use super::sender::Sender;
use line::Level;

// Clocks a sender once for each place of the list and writes down what it answers.
pub fn send<S: Sender>(sender: &mut S, levels: &mut [Level])
    ensures levels { levels.new ≡ spoken (S.meaning sender.old) (length levels.old) }
    ensures state { S.meaning sender.new ≡ after_sends (S.meaning sender.old) (length levels.old) }
    ensures due { (n : ℕ) → Sends (S.meaning sender.old) n }
{
    for level in levels.iter_mut() {
        *level = sender.clock();
    }
}

// Clocks a receiver once for each level of the list.
pub fn hear<R: Receiver>(receiver: &mut R, levels: &[Level])
    ensures state { R.meaning receiver.new ≡ after_levels (R.meaning receiver.old) levels.now }
    ensures hears { (R.meaning receiver.old).previous ≡ Mark → (R.meaning receiver.old).doing ≡ idle → Hears (R.meaning receiver.old) }
{
    for level in levels {
        receiver.clock(*level);
    }
}
