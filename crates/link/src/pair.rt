// Two ends and the rates of their clocks, judged bit by bit.
ghost use Rattle.std.specs.Prelude.{◌≤◌};

use super::rates::{Rates, Verdict};
use ends::{Receiver, Sender};

// A sender and a receiver whose rates can be judged.
#[derive(Drop)]
pub(crate) struct Pair<'a, S, R> {
    pub(crate) sender: &'a S,
    pub(crate) receiver: &'a R,
    pub(crate) rates: Rates,
    // so that no product of a rate and a clock is too large
    ghost send: { rates.send ≤ 16777216 },
    ghost receive: { rates.receive ≤ 16777216 },
}

impl<S: Sender, R: Receiver> Pair<'_, S, R> {
    ghost use Rattle.std.specs.Prelude.{◌≡◌, ◌+◌};
    ghost use Rattle.line.specs.Frames.{first_stop};
    ghost use Rattle.ends.specs.Times.{start_of};
    ghost use Rattle.link.specs.Judging.{bit_judged, judged};

    // The bits from the start bit through the first stop bit, one after the other. No `0..=`: tried, and that the fold may be called was left to
    // prove, since its lemmas speak of a `Range`.
    pub(crate) fn judge(&self) -> Verdict
        ensures { result ≡ judged (S.Sender.meaning self.now.sender.now) (R.Receiver.meaning self.now.receiver.now) self.now.rates.send self.now.rates.receive 0 (1 + first_stop (R.Receiver.meaning self.now.receiver.now).format) }
    {
        (0..self.receiver.format().first_stop() + 1)
            .try_fold(0, |begin, bit| self.judge_bit(bit, begin))
            .err()
            .unwrap_or(Verdict::Passes)
    }

    // Where this bit ends that begins at send clock `begin`, if it is neither early nor late.
    fn judge_bit(&self, bit: usize, begin: u64) -> Result<u64, Verdict>
        requires bit { bit ≤ 11 }
        requires begin { begin ≡ start_of (S.Sender.meaning self.now.sender.now).lengths bit }
        ensures { result ≡ bit_judged (S.Sender.meaning self.now.sender.now) (R.Receiver.meaning self.now.receiver.now) self.now.rates.send self.now.rates.receive bit }
    {
        let (a, b) = (u64::from(self.rates.send), u64::from(self.rates.receive));
        let end = begin + u64::from(self.sender.bit_length(bit));
        if begin * b > u64::from(self.receiver.sample_clock(3 * bit)) * a {
            return Err(Verdict::Early(bit));
        }
        if (u64::from(self.receiver.sample_clock(3 * bit + 2)) + 1) * a > end * b {
            return Err(Verdict::Late(bit));
        }
        Ok(end)
    }
}
