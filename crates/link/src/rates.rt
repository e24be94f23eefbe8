// Whether the rates of two clocks fit.
ghost use Rattle.std.specs.Prelude.{◌≡◌, ℕ, ◌&&◌, IfOk};
ghost use Rattle.link.specs.declared.rates.Verdict.TheVariants.{Passes};
ghost use Rattle.link.specs.Fit.{Meets, SteadyDelivers};
ghost use Rattle.link.specs.Judging.{fit_answer, rate_in_range};

use super::pair::Pair;
use ends::{Receiver, Sender};
use line::Refusal;

// The highest rate that Fit judges.
pub const MOST_RATE: u32 = 16_777_216;

#[derive(Clone, Copy, PartialEq, Eq, Debug)]
pub enum Verdict {
    Passes,
    // the first sample of this bit can come before the sender holds it
    Early(usize),
    // the sender can leave this bit before its third sample
    Late(usize),
}

// So many send clocks come to so many receive clocks: the rates of two clocks, in hertz or any other unit.
#[derive(Clone, Copy, PartialEq, Eq, Debug)]
pub struct Rates {
    pub send: u32,
    pub receive: u32,
}

impl Rates {
    // Whether both can be judged.
    fn in_range(self) -> bool
        ensures { result ≡ (rate_in_range self.send && rate_in_range self.receive) }
    {
        (1..=MOST_RATE).contains(&self.send) && (1..=MOST_RATE).contains(&self.receive)
    }
}

// Whether a sender and a receiver fit when their clocks have these rates; if not, the lowest bit that is early or late.
pub fn fit<S: Sender, R: Receiver>(
    sender: &S,
    receiver: &R,
    rates: Rates,
) -> Result<Verdict, Refusal>
    ensures answer { result ≡ fit_answer (S.Sender.meaning sender.now) (R.Receiver.meaning receiver.now) rates.send rates.receive }
    ensures exactly { IfOk result (λ f. (f ≡ Passes → Meets (S.Sender.meaning sender.now) (R.Receiver.meaning receiver.now) rates.send rates.receive) × (Meets (S.Sender.meaning sender.now) (R.Receiver.meaning receiver.now) rates.send rates.receive → f ≡ Passes)) }
    ensures delivers { IfOk result (λ f. f ≡ Passes → SteadyDelivers (S.Sender.meaning sender.now) (R.Receiver.meaning receiver.now) rates.send rates.receive) }
{
    if !rates.in_range() {
        return Err(Refusal::OutOfRange);
    }
    if !sender.format().agrees(receiver.format()) {
        return Err(Refusal::FormatsDiffer);
    }
    let pair = Pair {
        sender,
        receiver,
        rates,
    };
    Ok(pair.judge())
}
