// How the bare receiver hears many levels at once.
ghost use Rattle.std.specs.Prelude.{◌≡◌, ℕ, ◌-◌, ◌<◌, ◌≤◌, [], map, length, take, slice_index};
ghost use Rattle.line.specs.Levels.{byte_of, level_of};
ghost use Rattle.ends.specs.Runs.{after_levels, taken_down};
ghost use Rattle.ends.specs.BareReceiver.{meant};

use super::bare_receiver::BareReceiver;
use super::doing::Doing;
use super::receiver::Receiver;
use line::Level;

impl BareReceiver {
    // Hears the levels that the first bytes stand for, up to the next at which something may happen, and answers how many these are.
    // Between two samples of a frame no level is looked at; while an idle line stays as it is, levels are only compared.
    #[inline(always)]
    pub fn hear_some(&mut self, bytes: &[u8]) -> usize
        ensures within { result ≤ length bytes.now }
        ensures some { 0 < length bytes.now → 0 < result }
        ensures state { meant self.new ≡ after_levels (meant self.old) (map level_of (take result bytes.now)) }
        ensures quiet { taken_down (meant self.old) (map level_of (take (result - 1) bytes.now)) ≡ [] }
    {
        match &mut self.doing {
            Doing::Framing { clock, samples } => {
                // so many clocks come before that of the next sample
                let before = self.timing.samples[samples.count] - *clock - 1;
                match bytes.get(before as usize) {
                    Some(byte) => {
                        *clock += before;
                        self.clock(level_of(*byte));
                        before as usize + 1
                    }
                    None => {
                        // no more than come before the sample, so their number fits
                        *clock += bytes.len() as u32;
                        if let Some(byte) = bytes.last() {
                            self.previous = level_of(*byte);
                        }
                        bytes.len()
                    }
                }
            }
            Doing::Idle | Doing::Counting { .. } => self.hear_outside(bytes),
        }
    }

    // The same outside a frame. Out of line: it is rare beside the samples, whose loop is short without it. The clauses are the same, since a
    // word for them would take the states before and after, the bytes and the answer, and be opened in each proof.
    #[inline(never)]
    fn hear_outside(&mut self, bytes: &[u8]) -> usize
        ensures within { result ≤ length bytes.now }
        ensures some { 0 < length bytes.now → 0 < result }
        ensures state { meant self.new ≡ after_levels (meant self.old) (map level_of (take result bytes.now)) }
        ensures quiet { taken_down (meant self.old) (map level_of (take (result - 1) bytes.now)) ≡ [] }
    {
        let steady = self.steady(bytes);
        match bytes.get(steady) {
            Some(byte) => {
                self.clock(level_of(*byte));
                steady + 1
            }
            None => steady,
        }
    }

    // How many of the first bytes leave the receiver as it is.
    fn steady(&self, bytes: &[u8]) -> usize
        ensures within { result ≤ length bytes.now }
        ensures state { after_levels (meant self.now) (map level_of (take result bytes.now)) ≡ meant self.now }
        ensures quiet { (k : ℕ) → k ≤ result → taken_down (meant self.now) (map level_of (take k bytes.now)) ≡ [] }
    {
        match self.doing {
            Doing::Idle => run_length(bytes, u8::from(self.previous)),
            Doing::Framing { .. } | Doing::Counting { .. } => 0,
        }
    }
}

// How many of the first bytes are this one. The crate of pictures has one that compares with the first byte, and says that the run ends
// where it does: of this one it would have to ask for that byte first.
fn run_length(bytes: &[u8], byte: u8) -> usize
    ensures within { result ≤ length bytes.now }
    ensures equal { (k : ℕ) → k < result → slice_index bytes.now k ≡ byte }
{
    bytes.iter().take_while(|other| **other == byte).count()
}

// The level that a byte of a picture stands for.
fn level_of(byte: u8) -> Level
    ensures { result ≡ level_of byte }
{
    Level::from_digit(u16::from(byte))
}
