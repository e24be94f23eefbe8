// Formats, frames and tables of times: every frame of every format, and the settings of both kinds of ends.
use super::dice::Dice;
use super::levels::byte_of;
use super::said::Both;
use super::shape::Shape;
use super::tally::{Case, Numbered, Tally};
use super::times::{End, Gear};
use ends::{BareReceiver, BareSender, Receiver, Sender, Timing};
use line::{Format, Refusal};
use std::alloc::{AllocError, Global};
use std::{fmt, io};

// A frame as binary digits, bit 0 the lowest.
#[derive(Clone, Copy, PartialEq)]
struct Digits(u16);

impl fmt::Debug for Digits {
    fn fmt<W: fmt::Write>(&self, f: &mut fmt::Formatter<W>) -> fmt::Result {
        write!(f, "{:b}", self.0)
    }
}

// A frame in both emulators.
#[derive(Clone, Copy)]
struct Framed {
    shape: Shape,
    character: u16,
    frames: Both<Result<Digits, u8>>,
}

impl Framed {
    fn run(shape: Shape, character: u16) -> Framed {
        Framed {
            shape,
            character,
            frames: Both {
                own: Ok(frame_of(shape, character)),
                library: Format::try_from(shape).map(|format| Digits(format.frame(character))),
            }
            .numbered(),
        }
    }
}

fn frame_of(shape: Shape, character: u16) -> Digits {
    Digits((0..shape.bits()).fold(0u16, |sum, bit| {
        let level = u16::from(byte_of(shape.level(character, bit)));
        sum.saturating_add(level << (bit % 16))
    }))
}

impl Case for Framed {
    fn is_same(&self) -> bool {
        self.frames.agree()
    }
}

impl fmt::Display for Framed {
    fn fmt<W: fmt::Write>(&self, f: &mut fmt::Formatter<W>) -> fmt::Result {
        let character = self.character;
        writeln!(
            f,
            "{}, character {character:X}h, the frame with bit 0 last",
            self.shape
        )?;
        write!(f, "{}", self.frames)
    }
}

pub(crate) fn compare_frames(rt: &impl Print) -> io::Result<Tally> {
    let mut tally = Tally::default();
    for shape in (0..24).map(Shape::numbered) {
        for character in 0..shape.characters() {
            tally.count(rt, &Framed::run(shape, character))?;
        }
    }
    Ok(tally)
}

#[derive(Clone, Copy, Debug)]
enum Time {
    BitLength,
    SampleClock,
    BreakLength,
}

// A time on which the two sides differ, and its place among the times of its kind.
#[derive(Clone, Copy)]
struct Odd {
    time: Time,
    place: usize,
    numbers: Both<u32>,
}

impl fmt::Display for Odd {
    fn fmt<W: fmt::Write>(&self, f: &mut fmt::Formatter<W>) -> fmt::Result {
        writeln!(f, "  {:?} {}, counted from 0", self.time, self.place)?;
        write!(f, "{}", self.numbers)
    }
}

// The first place below a bound at which the library's number and our own differ.
fn first_odd<F: Fn(usize) -> Both<u32>>(time: Time, bound: usize, numbers: F) -> Option<Odd>
    requires { F.IsAlwaysCallable numbers }
{
    (0..bound).find_map(|place| {
        let numbers = numbers(place);
        (!numbers.agree()).then_some(Odd {
            time,
            place,
            numbers,
        })
    })
}

// An end's times in both emulators.
#[derive(Drop)]
pub(crate) struct Timed {
    seed: u16,
    end: End,
    suits: Both<Result<(), u8>>,
    odd: Option<Odd>,
}

impl Numbered for Timed {
    fn run(_heap: Global, seed: u16) -> Result<Option<Timed>, AllocError> {
        let mut dice = Dice::new(u32::from(seed));
        let shape = Shape::numbered(dice.below(24));
        let end = End::new(shape, any_gear(&mut dice));
        let timing = Timing::try_from(end);
        let own = if end.gear.suits(shape) {
            Ok(())
        } else {
            Err(Refusal::OutOfRange)
        };
        Ok(Some(Timed {
            seed,
            end,
            suits: Both {
                own,
                library: timing.map(|_| ()),
            }
            .numbered(),
            odd: match timing {
                Ok(timing) if own.is_ok() => odd_time(&end, timing),
                _ => None,
            },
        }))
    }
}

// The first of the bit lengths, the sample clocks and the break length that differs.
fn odd_time(end: &End, timing: Timing) -> Option<Odd> {
    let sender = BareSender::new(timing);
    let receiver = BareReceiver::new(timing);
    let length = |bit: usize| {
        let above = end.start(bit.saturating_add(1));
        Both {
            own: above.saturating_sub(end.start(bit)),
            library: sender.bit_length(bit),
        }
    };
    let sample = |place: usize| {
        let bit = place / 3;
        let sampled = bit <= end.shape.first_stop();
        Both {
            own: if sampled {
                end.sampled(bit)[place % 3]
            } else {
                0
            },
            library: receiver.sample_clock(place),
        }
    };
    let pause = |_: usize| Both {
        own: end.gear.break_length(),
        library: timing.break_length,
    };
    first_odd(Time::BitLength, 14, length)
        .or_else(|| first_odd(Time::SampleClock, 37, sample))
        .or_else(|| first_odd(Time::BreakLength, 1, pause))
}

impl Case for Timed {
    fn is_same(&self) -> bool {
        self.suits.agree() && self.odd.is_none()
    }
}

impl fmt::Display for Timed {
    fn fmt<W: fmt::Write>(&self, f: &mut fmt::Formatter<W>) -> fmt::Result {
        let seed = self.seed;
        writeln!(f, "seed {seed}, {}", self.end)?;
        write!(f, "{}", self.suits)?;
        self.odd.map_or(Ok(()), |odd| write!(f, "{odd}"))
    }
}

// Settings of all sizes, a few of them out of range.
fn any_gear(dice: &mut Dice) -> Gear {
    let most = dice.below(16);
    let divider = dice.below(1u16 << (most % 16));
    if dice.one_in(2) {
        Gear::Port {
            divider: divider / 4,
        }
    } else {
        let modulator = dice.byte();
        Gear::Usart { divider, modulator }
    }
}
