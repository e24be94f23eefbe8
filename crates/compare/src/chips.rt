// Chips driven by random writes, reads and clocks.
use super::address;
use super::dice::Dice;
use super::firmware::{Step, some_steps};
use super::receive::Receive;
use super::said::{Answer, Answers, Both, Said};
use super::shape::Shape;
use super::tally::{Case, Numbered};
use super::transmit::{Received, Transmit};
use chip::Chip;
use std::alloc::{AllocError, Global};
use std::fmt;

// The answers of the half that sends, and what arrives at the other.
fn transmitted(
    heap: Global,
    steps: &[Step],
    received: &mut Vec<Received>,
) -> Result<Vec<Answer>, AllocError> {
    let mut chip = Transmit::power_up();
    let mut answers = Vec::new(heap);
    for (i, step) in steps.iter().enumerate() {
        if step.resets() {
            chip.hand_over(heap, received)?;
        }
        answers.push(match *step {
            Step::Write { address, value } => chip.write(heap, address, value)?,
            Step::Read { address } => chip.read(address),
            Step::Clock { level } => Ok(Said::Line(chip.clock(level, i)?)),
            Step::Poll => Ok(Said::Flags {
                utxifg: chip.utxifg(),
                urxifg: false,
            }),
        })?;
    }
    chip.hand_over(heap, received)?;
    Ok(answers)
}

fn by_times(heap: Global, steps: &[Step]) -> Result<Vec<Answer>, AllocError> {
    let mut received = Vec::new(heap);
    let mut answers = transmitted(heap, steps, &mut received)?;
    let mut chip = Receive::power_up();
    let mut arrivals = received.iter().peekable();
    for (i, (step, answer)) in steps.iter().zip(answers.iter_mut()).enumerate() {
        if step.resets() {
            chip.reset();
        }
        match *step {
            Step::Clock { .. } => {
                if let Some(arrival) = arrivals.next_if(|arrival| arrival.step == i) {
                    chip.arrive(*arrival);
                }
            }
            Step::Write {
                address: address::URCTL,
                value,
            } => chip.write_urctl(value),
            Step::Read {
                address: address::URCTL,
            } => *answer = Ok(Said::Byte(chip.read_urctl())),
            Step::Read {
                address: address::URXBUF,
            } => *answer = Ok(Said::Byte(chip.read_urxbuf())),
            Step::Poll => {
                if let Ok(Said::Flags { urxifg, .. }) = answer {
                    *urxifg = chip.urxifg;
                }
            }
            _ => {}
        }
    }
    Ok(answers)
}

fn by_library(heap: Global, steps: &[Step]) -> Result<Vec<Answer>, AllocError> {
    let mut chip = Chip::power_up();
    let mut answers = Vec::new(heap);
    for step in steps {
        answers.push(match *step {
            Step::Write { address, value } => chip.write(address, value).map(|_| Said::Done),
            Step::Read { address } => chip.read(address).map(Said::Byte),
            Step::Clock { level } => Ok(Said::Line(chip.clock(level))),
            Step::Poll => {
                let flags = chip.interrupts();
                Ok(Said::Flags {
                    utxifg: flags.utxifg,
                    urxifg: flags.urxifg,
                })
            }
        })?;
    }
    Ok(answers)
}

// The answers of both emulators.
#[derive(Drop)]
pub(crate) struct Driven {
    seed: u16,
    steps: Vec<Step>,
    answers: Answers,
}

impl Numbered for Driven {
    fn run(heap: Global, seed: u16) -> Result<Option<Driven>, AllocError> {
        let mut dice = Dice::new(u32::from(seed));
        let shape = Shape::numbered(seed % 24);
        let steps = some_steps(heap, &mut dice, shape)?;
        let answers = Both {
            own: by_times(heap, steps.as_slice())?,
            library: by_library(heap, steps.as_slice())?,
        }
        .each_numbered(heap)?;
        Ok(Some(Driven {
            seed,
            steps,
            answers,
        }))
    }
}

impl Case for Driven {
    fn is_same(&self) -> bool {
        self.answers.difference().is_none()
    }
}

impl fmt::Display for Driven {
    fn fmt<W: fmt::Write>(&self, f: &mut fmt::Formatter<W>) -> fmt::Result {
        let seed = self.seed;
        let place = self.answers.difference().unwrap_or(0);
        let steps = self.steps.as_slice();
        let done = steps.get(..=place).unwrap_or(steps);
        writeln!(
            f,
            "seed {seed}, to the last of the steps, number {place} from 0, {done:?}"
        )?;
        write!(f, "{}", self.answers.at(place))
    }
}
