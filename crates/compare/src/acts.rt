// Acts for a link: two clocks that drift or stumble, with loads, reads and noise between them.
use super::dice::Dice;
use super::times::Pair;
use line::Level;
use link::Act;
use std::alloc::{AllocError, Global};
use std::iter::repeat_n;

// How often each thing is done: once in so many clocks.
#[derive(Clone, Copy)]
struct Habits {
    load: u16,
    read: u16,
    noise: u16,
    stumble: u16,
}

impl Habits {
    fn new(dice: &mut Dice) -> Habits {
        Habits {
            load: dice.one_of(&[3, 30, 150]),
            read: dice.one_of(&[4, 70, 400, 0]),
            noise: dice.one_of(&[0, 0, 30, 400]),
            stumble: dice.one_of(&[0, 0, 10, 50]),
        }
    }
}

// The receiver's clock in hundredths of what would make the bits of both ends last the same.
fn some_speed(dice: &mut Dice) -> u16 {
    match dice.below(3) {
        0 => 100,
        1 => dice.below(7).saturating_add(97),
        _ => dice.below(60).saturating_add(70),
    }
}

// One receive clock, and what may come with it.
fn push_receive(acts: &mut Vec<Act>, dice: &mut Dice, habits: Habits) -> Result<(), AllocError> {
    if dice.one_in(habits.noise) {
        // a few random levels, or a long space
        let long = dice.one_in(4);
        for _ in 0..dice.below(if long { 250 } else { 12 }) {
            let level = if long || dice.one_in(2) {
                Level::Space
            } else {
                Level::Mark
            };
            acts.push(Act::Noise(level))?;
        }
    }
    acts.push(Act::Receive)?;
    if dice.one_in(habits.read) {
        acts.push(Act::Read)?;
    }
    Ok(())
}

pub(crate) fn some_acts(
    heap: Global,
    dice: &mut Dice,
    pair: &Pair,
) -> Result<Vec<Act>, AllocError> {
    let mut acts = Vec::new(heap);
    let habits = Habits::new(dice);
    // a send clock brings so many parts of a receive clock, which has so many
    let brought = u64::from(pair.receiver.start(10)).saturating_mul(u64::from(some_speed(dice)));
    let parts = u64::from(pair.sender.start(10)).saturating_mul(100).max(1);
    // now and then long enough to fill a queue on a queue
    let frames = if dice.one_in(16) { 40 } else { 5 };
    let clocks = pair
        .sender
        .frame_clocks
        .saturating_mul(u32::from(dice.below(frames)) + 1);
    let mut owed = u64::from(dice.below(100)) % parts;
    for _ in 0..clocks {
        if dice.one_in(habits.load) {
            acts.push(Act::Load(pair.sender.shape.character(dice, 20)))?;
        }
        acts.push(Act::Send)?;
        owed = owed.saturating_add(brought);
        if dice.one_in(habits.stumble) {
            owed = owed.saturating_add(parts.saturating_mul(u64::from(dice.below(3))));
        } else if dice.one_in(habits.stumble) {
            owed = 0;
        }
        for _ in 0..owed / parts {
            push_receive(&mut acts, dice, habits)?;
        }
        owed %= parts;
    }
    acts.extend(repeat_n(Act::Read, usize::from(dice.below(40))))?;
    Ok(acts)
}
