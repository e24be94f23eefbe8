// Fit against its definition: every phase of two steady clocks, and every send clock at which a frame can begin.
use super::dice::Dice;
use super::said::Both;
use super::tally::{Case, Numbered};
use super::times::Pair;
use ends::{BareReceiver, BareSender};
use line::Refusal;
use link::{Rates, Verdict, fit};
use std::alloc::{AllocError, Global};
use std::fmt;

// Two clocks, from a phase below the rate of the receive clock.
#[derive(Clone, Copy)]
struct Clocks {
    rates: Rates,
    phase: u32,
}

impl Clocks {
    // The last send clock given before a receive clock, counted from 1, and 0 where there was none.
    fn sent(self, receive_clock: u64) -> u64 {
        receive_clock
            .saturating_mul(u64::from(self.rates.send))
            .saturating_add(u64::from(self.phase))
            / u64::from(self.rates.receive.max(1))
    }

    // The first receive clock after a send clock, which counts from 1.
    fn after(self, send_clock: u64) -> u64 {
        send_clock
            .saturating_mul(u64::from(self.rates.receive))
            .saturating_sub(u64::from(self.phase))
            .div_ceil(u64::from(self.rates.send.max(1)))
    }

    // What happens to a bit of the frame that begins at this send clock, counted from 1.
    fn fault(self, pair: &Pair, first: u64, bit: usize) -> Option<Verdict> {
        let edge = self.after(first);
        let start = |bit: usize| first.saturating_add(u64::from(pair.sender.start(bit)));
        if self.sent(edge) >= start(1) {
            // the start bit came and went between two receive clocks
            return Some(Verdict::Late(bit));
        }
        let [earliest, _, latest] = pair.receiver.sampled(bit);
        let sampled = |clock: u32| self.sent(edge.saturating_add(u64::from(clock)));
        if sampled(earliest) < start(bit) {
            return Some(Verdict::Early(bit));
        }
        if sampled(latest) >= start(bit.saturating_add(1)) {
            return Some(Verdict::Late(bit));
        }
        None
    }
}

// A line, and the rates of its two clocks.
#[derive(Clone, Copy)]
struct Setup {
    pair: Pair,
    rates: Rates,
}

impl Setup {
    // Rates at which the bits of both ends last about the same time.
    fn random(dice: &mut Dice, pair: Pair) -> Setup {
        let receive = u32::from(dice.below(40));
        let scaled = u64::from(receive) * u64::from(pair.sender.start(10));
        let even = scaled / u64::from(pair.receiver.start(10).max(1));
        // at most 200, so the cast keeps it
        let near = even.min(200) as u32;
        let send = near
            .saturating_add(u32::from(dice.below(4)))
            .saturating_sub(1);
        Setup {
            pair,
            rates: Rates { send, receive },
        }
    }

    // What the bit suffers from some phase and some beginning, early first. Loops and no chain: the first early one ends both.
    fn worst(&self, bit: usize) -> Option<Verdict> {
        let mut found = None;
        for phase in 0..self.rates.receive {
            let clocks = Clocks {
                rates: self.rates,
                phase,
            };
            // the clocks fall alike again after as many send clocks as the rate says
            for first in 0..self.rates.send {
                match clocks.fault(&self.pair, u64::from(first) + 1, bit) {
                    None => {}
                    Some(Verdict::Early(bit)) => return Some(Verdict::Early(bit)),
                    late => found = late,
                }
            }
        }
        found
    }

    // The verdict on the lowest bit with a fault.
    fn by_phases(&self) -> Result<Verdict, Refusal> {
        if self.rates.send == 0 || self.rates.receive == 0 {
            return Err(Refusal::OutOfRange);
        }
        if !self.pair.agrees() {
            return Err(Refusal::FormatsDiffer);
        }
        let bits = self.pair.receiver.shape.first_stop().saturating_add(1);
        let worst = (0..bits).find_map(|bit| self.worst(bit));
        Ok(worst.unwrap_or(Verdict::Passes))
    }

    fn by_library(&self) -> Result<Verdict, Refusal> {
        let (from, to) = self.pair.timings()?;
        fit(&BareSender::new(from), &BareReceiver::new(to), self.rates)
    }
}

#[derive(Drop)]
pub(crate) struct Rated {
    seed: u16,
    setup: Setup,
    verdicts: Both<Result<Verdict, u8>>,
}

impl Numbered for Rated {
    fn run(_heap: Global, seed: u16) -> Result<Option<Rated>, AllocError> {
        let mut dice = Dice::new(u32::from(seed));
        let pair = Pair::short(&mut dice, seed, 20);
        let setup = Setup::random(&mut dice, pair);
        Ok(Some(Rated {
            seed,
            setup,
            verdicts: Both {
                own: setup.by_phases(),
                library: setup.by_library(),
            }
            .numbered(),
        }))
    }
}

impl Case for Rated {
    fn is_same(&self) -> bool {
        self.verdicts.agree()
    }
}

impl fmt::Display for Rated {
    fn fmt<W: fmt::Write>(&self, f: &mut fmt::Formatter<W>) -> fmt::Result {
        let seed = self.seed;
        let Setup { pair, rates } = self.setup;
        writeln!(f, "seed {seed}, {rates:?}, {pair}")?;
        write!(f, "{}", self.verdicts)
    }
}
