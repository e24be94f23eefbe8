// How far the clock of an end may be off before Fit no longer passes.
ghost use Rattle.std.specs.Prelude.{◌≡◌, ◌+◌, ◌-◌, ◌<◌, ◌≤◌, true, false};
ghost use Rattle.sheet.specs.Tolerance.{own_rate};

use ends::{Receiver, Sender};
pub use link::Rates;
use link::{MOST_RATE, Verdict, fit};

// The end whose clock is off.
#[derive(Clone, Copy, PartialEq, Eq, Debug)]
pub enum Off {
    Sender,
    Receiver,
}

impl Off {
    // The rate that the clock should have.
    pub(crate) fn own_rate(self, rates: Rates) -> u32
        ensures { result ≡ own_rate rates self }
    {
        match self {
            Off::Sender => rates.send,
            Off::Receiver => rates.receive,
        }
    }
}

// Two ends with the rates that their clocks should have, and the end whose clock is off.
#[derive(Clone, Copy)]
pub struct Tolerance<'a, S, R> {
    pub sender: &'a S,
    pub receiver: &'a R,
    pub rates: Rates,
    pub off: Off,
}

impl<S: Sender, R: Receiver> Tolerance<'_, S, R> {
    ghost use Rattle.sheet.specs.Tolerance.{passes_of, Highest, Lowest};

    // Whether Fit passes when the clock has this rate, and the other the rate that it should have.
    fn passes(&self, hertz: u32) -> bool
        ensures { result ≡ passes_of S.Sender.meaning R.Receiver.meaning self.now hertz }
    {
        let varied = match self.off {
            Off::Sender => Rates {
                send: hertz,
                ..self.rates
            },
            Off::Receiver => Rates {
                receive: hertz,
                ..self.rates
            },
        };
        matches!(fit(self.sender, self.receiver, varied), Ok(Verdict::Passes))
    }

    // The last rate at which Fit passes, from one at which it does towards one at which it doesn't.
    fn edge(&self, mut good: u32, mut bad: u32) -> u32
        requires good { passes_of S.Sender.meaning R.Receiver.meaning self.now good ≡ true }
        requires bad { passes_of S.Sender.meaning R.Receiver.meaning self.now bad ≡ false }
        ensures passes { passes_of S.Sender.meaning R.Receiver.meaning self.now result ≡ true }
        ensures up { good < bad → (good ≤ result) × (passes_of S.Sender.meaning R.Receiver.meaning self.now (result + 1) ≡ false) }
        ensures down { bad < good → (result ≤ good) × (passes_of S.Sender.meaning R.Receiver.meaning self.now (result - 1) ≡ false) }
    {
        while good.abs_diff(bad) > 1 {
            let middle = good.midpoint(bad);
            if self.passes(middle) {
                good = middle;
            } else {
                bad = middle;
            }
        }
        good
    }

    // The last rate at which Fit passes, from the one that the clock should have towards one at which it doesn't.
    // No `then`: tried, and the proof did not find what its closure returns.
    fn edge_towards(&self, bad: u32) -> Option<u32>
        requires { passes_of S.Sender.meaning R.Receiver.meaning self.now bad ≡ false }
        ensures up { 16777217 ≤ bad → Highest S.Sender.meaning R.Receiver.meaning self.now result }
        ensures down { bad ≡ 0 → Lowest S.Sender.meaning R.Receiver.meaning self.now result }
    {
        let own = self.off.own_rate(self.rates);
        if !self.passes(own) {
            return None;
        }
        Some(self.edge(own, bad))
    }

    // The highest rate of the clock up to which Fit passes; none where it does not pass at all.
    pub fn highest(&self) -> Option<u32>
        ensures { Highest S.Sender.meaning R.Receiver.meaning self.now result }
    {
        self.edge_towards(MOST_RATE + 1)
    }

    // The lowest rate of the clock down to which Fit passes; none where it does not pass at all.
    pub fn lowest(&self) -> Option<u32>
        ensures { Lowest S.Sender.meaning R.Receiver.meaning self.now result }
    {
        self.edge_towards(0)
    }
}
