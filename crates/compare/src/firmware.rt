// What firmware does to a chip in a case: it sets the chip up, releases it, clocks it, and looks and writes at odd moments.
use super::address;
use super::dice::Dice;
use super::scans::{levels, some_picture};
use super::shape::Shape;
use super::times::{End, Gear};
use line::{DataBits, Level, Parity, StopBits};
use std::alloc::{AllocError, Global};

#[derive(Clone, Copy, Debug)]
pub(crate) enum Step {
    Write { address: u16, value: u8 },
    Read { address: u16 },
    // with the level on the line that is received
    Clock { level: Level },
    // asks for the interrupt flags
    Poll,
}

impl Step {
    // Whether it puts the chip in reset.
    pub(crate) fn resets(self) -> bool {
        match self {
            Step::Write {
                address: address::UCTL,
                value,
            } => value & address::SWRST != 0,
            _ => false,
        }
    }
}

// Any of the registers, and a few addresses beside them.
fn some_address(dice: &mut Dice) -> u16 {
    dice.below(12).saturating_add(0x6e)
}

fn some_step(dice: &mut Dice) -> Step {
    let value = dice.byte();
    match dice.below(11) {
        0..=1 => Step::Write {
            address: address::UTXBUF,
            value,
        },
        2 => Step::Write {
            address: address::UTCTL,
            value,
        },
        3 => Step::Write {
            address: address::URCTL,
            value,
        },
        4 => Step::Write {
            address: some_address(dice),
            value,
        },
        5..=6 => Step::Read {
            address: address::URXBUF,
        },
        7 => Step::Read {
            address: address::URCTL,
        },
        8..=9 => Step::Read {
            address: some_address(dice),
        },
        _ => Step::Poll,
    }
}

// UCTL for a format, with SWRST 0, now and then with SYNC set.
fn control(dice: &mut Dice, shape: Shape) -> u8 {
    address::joined(&[
        (address::PENA, shape.parity != Parity::Absent),
        (address::PEV, shape.parity == Parity::Even),
        (address::SP, shape.stops == StopBits::Two),
        (address::CHAR, shape.data == DataBits::Eight),
        (address::MM, shape.address),
        (address::LISTEN, dice.one_in(2)),
        (address::SYNC, dice.one_in(20)),
    ])
}

// From a reset to the next one.
fn push_life(
    heap: Global,
    steps: &mut Vec<Step>,
    dice: &mut Dice,
    shape: Shape,
) -> Result<(), AllocError> {
    let divider = dice.byte() % 6 + 2;
    let modulator = dice.byte();
    let released = control(dice, shape);
    let every = dice.one_of(&[2, 9, 40, 200]);
    // with a high byte the bits are so long that only a start bit is seen
    let high = u8::from(dice.one_in(30));
    let setup = [
        (address::UCTL, dice.byte() | address::SWRST),
        (address::UMCTL, modulator),
        (address::UBR0, divider),
        (address::UBR1, high),
        (address::URCTL, dice.byte()),
        (address::UTXBUF, dice.byte()),
        (address::UTCTL, dice.byte()),
        (address::UCTL, released),
    ];
    for (address, value) in setup {
        steps.push(Step::Write { address, value })?;
        if dice.one_in(4) {
            steps.push(some_step(dice))?;
        }
    }
    let gear = Gear::Usart {
        divider: u16::from(divider),
        modulator,
    };
    let end = End::new(shape, gear);
    for _ in 0..3 {
        let picture = some_picture(heap, &end, dice)?;
        for level in levels(heap, picture.as_slice())?.iter() {
            steps.push(Step::Clock { level: *level })?;
            if dice.one_in(every) {
                steps.push(some_step(dice))?;
            }
        }
    }
    Ok(())
}

pub(crate) fn some_steps(
    heap: Global,
    dice: &mut Dice,
    shape: Shape,
) -> Result<Vec<Step>, AllocError> {
    let mut steps = Vec::new(heap);
    for _ in 0..dice.below(2).saturating_add(1) {
        push_life(heap, &mut steps, dice, shape)?;
    }
    Ok(steps)
}
