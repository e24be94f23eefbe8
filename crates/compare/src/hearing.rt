// What a receiver takes down of a list of levels, one for each clock, found by looking up the clocks that count.
use super::levels::byte_of;
use super::times::End;
use line::{Level, Parity};
use std::alloc::{AllocError, Global};

// The flags are the library's numbers, written apart from it.
pub(crate) const OVERRUN: u8 = 1;

pub(crate) const PARITY: u8 = 2;

pub(crate) const FRAMING: u8 = 4;

pub(crate) const BREAK: u8 = 8;

// A character and its flags.
#[derive(Clone, Copy, PartialEq, Debug)]
pub(crate) struct Entry {
    pub(crate) character: u16,
    pub(crate) flags: u8,
}

// An entry, and the clock at which it arrives.
#[derive(Clone, Copy)]
pub(crate) struct Arrival {
    pub(crate) clock: usize,
    pub(crate) entry: Entry,
}

// What stands after an edge; a frame or a false start is over at its last clock.
enum Seen {
    FalseStart { last: usize },
    Frame(Arrival),
}

// The first space at or after a clock that follows a mark. The line is at mark before the first clock.
fn next_edge(levels: &[Level], from: usize) -> Option<usize> {
    if from == 0 && levels.first() == Some(&Level::Space) {
        return Some(0);
    }
    let mark = from.saturating_sub(1);
    let place = levels
        .get(mark..)?
        .windows(2)
        .position(|pair| pair == [Level::Mark, Level::Space].as_slice())?;
    Some(mark.saturating_add(place).saturating_add(1))
}

// The majority of the levels at three clocks after an edge, if all of them are there.
fn vote(levels: &[Level], edge: usize, samples: [u32; 3]) -> Option<Level> {
    let at = |sample: u32| levels.get(edge.saturating_add(sample as usize)).copied();
    let [Some(first), Some(second), Some(third)] = samples.map(at) else {
        return None;
    };
    Some(if first == second || first == third {
        first
    } else {
        second
    })
}

// The entry of a frame that was sampled as these levels.
fn taken_down(end: &End, bits: &[Level; 12]) -> Entry {
    let stop = end.shape.first_stop();
    let character = bits
        .iter()
        .skip(1)
        .take(end.shape.width())
        .rev()
        .fold(0u16, |above, bit| {
            above
                .saturating_mul(2)
                .saturating_add(u16::from(byte_of(*bit)))
        });
    let below_stop = bits.iter().take(stop).skip(1);
    let marks = below_stop.filter(|bit| **bit == Level::Mark).count();
    let wrong_parity = match end.shape.parity {
        Parity::Absent => false,
        Parity::Odd => marks % 2 == 0,
        Parity::Even => marks % 2 == 1,
    };
    let parity = if wrong_parity { PARITY } else { 0 };
    let framing = if bits.get(stop) == Some(&Level::Space) {
        FRAMING
    } else {
        0
    };
    Entry {
        character,
        flags: parity | framing,
    }
}

// None where the levels end before the frame does.
fn after_edge(end: &End, levels: &[Level], edge: usize) -> Option<Seen> {
    if vote(levels, edge, end.sampled(0))? == Level::Mark {
        let last = edge.saturating_add(end.last_sample(0) as usize);
        return Some(Seen::FalseStart { last });
    }
    let stop = end.shape.first_stop();
    let mut bits = [Level::Mark; 12];
    let sampled = bits.iter_mut().zip(end.samples.iter());
    for (bit, samples) in sampled.take(stop.saturating_add(1)) {
        *bit = vote(levels, edge, *samples)?;
    }
    Some(Seen::Frame(Arrival {
        clock: edge.saturating_add(end.last_sample(stop) as usize),
        entry: taken_down(end, &bits),
    }))
}

// Whether all these clocks were given, and are at space.
fn stays_at_space(levels: &[Level], first: usize, last: usize) -> bool {
    levels
        .get(first..last.saturating_add(1))
        .is_some_and(|clocks| clocks.iter().all(|level| *level == Level::Space))
}

// All entries, by the clocks at which they arrive.
pub(crate) fn heard(heap: Global, end: &End, levels: &[Level]) -> Result<Vec<Arrival>, AllocError> {
    let mut arrivals = Vec::new(heap);
    let mut from = 0;
    // there are no more edges than levels
    for _ in 0..levels.len() {
        let Some(edge) = next_edge(levels, from) else {
            return Ok(arrivals);
        };
        let last = match after_edge(end, levels, edge) {
            None => return Ok(arrivals),
            Some(Seen::FalseStart { last }) => last,
            Some(Seen::Frame(arrival)) => {
                arrivals.push(arrival)?;
                let clock = arrival
                    .clock
                    .saturating_add(end.gear.break_length() as usize);
                let framing = arrival.entry.flags & FRAMING != 0;
                // where the last sample itself is a mark, a space after it begins a frame and is not counted
                if framing && stays_at_space(levels, arrival.clock, clock) {
                    let entry = Entry {
                        character: 0,
                        flags: BREAK,
                    };
                    arrivals.push(Arrival { clock, entry })?;
                }
                arrival.clock
            }
        };
        from = last.saturating_add(1);
    }
    Ok(arrivals)
}
