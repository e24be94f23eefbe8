// One way on a line, from an end that sends to one that receives, each with the rate of its clock.
ghost use Rattle.std.specs.Prelude.{◌≡◌, false, IfOk, MatchOption};
ghost use Rattle.std.specs.Range.{range_inclusive_start, range_inclusive_end, range_inclusive_exhausted};
ghost use Rattle.ends.specs.BareSender.{meant as sender_meant};
ghost use Rattle.ends.specs.BareReceiver.{meant as receiver_meant};
ghost use Rattle.link.specs.declared.rates.Verdict.TheVariants.{Passes};
ghost use Rattle.link.specs.Fit.{Meets, SteadyDelivers};
ghost use Rattle.link.specs.Judging.{fit_answer};
ghost use Rattle.sheet.specs.Tolerance.{UpTo, DownTo};
ghost use Rattle.sheet.specs.Ways.{sender_of, receiver_of, rates_of, rate_of, passes_over};

use super::tolerance::{Off, Tolerance};
use ends::{BareReceiver, BareSender, Timing};
use line::Refusal;
use link::{Rates, Verdict, fit};
use std::ops::RangeInclusive;

// The times of an end, and the rate that its clock should have.
#[derive(Clone, Copy)]
pub struct Clocked {
    pub timing: Timing,
    pub hertz: u32,
}

#[derive(Clone, Copy)]
pub struct Way {
    pub from: Clocked,
    pub to: Clocked,
}

impl Way {
    pub fn back(self) -> Way
        ensures from { result.from ≡ self.to }
        ensures to { result.to ≡ self.from }
    {
        Way {
            from: self.to,
            to: self.from,
        }
    }

    pub fn sender(self) -> BareSender
        ensures { sender_meant result ≡ sender_of self }
    {
        BareSender::new(self.from.timing)
    }

    pub fn receiver(self) -> BareReceiver
        ensures { receiver_meant result ≡ receiver_of self }
    {
        BareReceiver::new(self.to.timing)
    }

    fn rates(self) -> Rates
        ensures { result ≡ rates_of self }
    {
        Rates {
            send: self.from.hertz,
            receive: self.to.hertz,
        }
    }

    // What Fit says of it.
    pub fn verdict(self) -> Result<Verdict, Refusal>
        ensures answer { result ≡ fit_answer (sender_of self) (receiver_of self) self.from.hertz self.to.hertz }
        ensures exactly { IfOk result (λ f. (f ≡ Passes → Meets (sender_of self) (receiver_of self) self.from.hertz self.to.hertz) × (Meets (sender_of self) (receiver_of self) self.from.hertz self.to.hertz → f ≡ Passes)) }
        ensures delivers { IfOk result (λ f. f ≡ Passes → SteadyDelivers (sender_of self) (receiver_of self) self.from.hertz self.to.hertz) }
    {
        fit(&self.sender(), &self.receiver(), self.rates())
    }

    // The rates that the clock of an end may have if the other's is as given; none where the ends do not fit.
    pub fn range(self, off: Off) -> Option<RangeInclusive<u32>>
        ensures { MatchOption result (passes_over self off (rate_of self off) ≡ false) (λ range. DownTo (passes_over self off) (rate_of self off) (range_inclusive_start range) × UpTo (passes_over self off) (rate_of self off) (range_inclusive_end range) × (range_inclusive_exhausted range ≡ false)) }
    {
        let (sender, receiver) = (self.sender(), self.receiver());
        let tolerance = Tolerance {
            sender: &sender,
            receiver: &receiver,
            rates: self.rates(),
            off,
        };
        Some(tolerance.lowest()?..=tolerance.highest()?)
    }

    // The rate that the clock of an end should have.
    pub fn rate(self, off: Off) -> u32
        ensures { result ≡ rate_of self off }
    {
        off.own_rate(self.rates())
    }
}
