// Pictures scanned: clean ones, spoiled ones and random ones. A picture is bytes here, since one in it may be no level.
use super::dice::Dice;
use super::hearing::{Arrival, heard};
use super::levels::{byte_of, level_of};
use super::said::Both;
use super::tally::{Case, Numbered};
use super::times::{End, some_end};
use line::{Level, Refusal};
use picture::scan;
use std::alloc::{AllocError, Global};
use std::fmt;
use std::iter::repeat_n;

// Stands where a list must be left alone.
const KEPT: (u16, u8) = (999, 99);

// A few frames with marks before, between and after them.
fn frames(heap: Global, end: &End, dice: &mut Dice) -> Result<Vec<u8>, AllocError> {
    let mut picture = Vec::new(heap);
    for _ in 0..dice.below(4) {
        let character = end.shape.character(dice, 0);
        picture.extend(repeat_n(1, usize::from(dice.below(12))))?;
        picture.extend((0..end.frame_clocks).map(|clock| byte_of(end.level(character, clock))))?;
    }
    picture.extend(repeat_n(1, usize::from(dice.below(4))))?;
    Ok(picture)
}

// Runs of a random level and length, put over the picture.
fn spoil(picture: &mut [u8], dice: &mut Dice, longest: u16) {
    // at most 2,000, so the cast keeps it
    let length = picture.len().min(2000) as u16;
    for _ in 0..dice.below(5).saturating_add(1) {
        let first = usize::from(dice.below(length));
        let run = usize::from(dice.below(longest));
        let level = u8::from(!dice.one_in(2));
        for byte in picture.iter_mut().skip(first).take(run) {
            *byte = level;
        }
    }
}

// Nothing but runs of random lengths.
fn runs(heap: Global, dice: &mut Dice, longest: u16) -> Result<Vec<u8>, AllocError> {
    let mut picture = Vec::new(heap);
    for i in 0..dice.below(20) {
        let bound = dice.below(longest).saturating_add(1);
        picture.extend(repeat_n(u8::from(i % 2 == 1), usize::from(dice.below(bound))))?;
    }
    Ok(picture)
}

// Long spaces with short marks between them: some reach just to a frame's last sample, some are about as long as a break.
fn breaks(heap: Global, end: &End, dice: &mut Dice) -> Result<Vec<u8>, AllocError> {
    let mut picture = Vec::new(heap);
    let to_stop = end.last_sample(end.shape.first_stop());
    let to_break = to_stop.saturating_add(end.gear.break_length());
    for _ in 0..dice.below(4).saturating_add(2) {
        let few = u32::from(dice.below(3));
        let spaces = match dice.below(3) {
            0 => few.saturating_add(to_stop).saturating_sub(1),
            1 => few.saturating_add(to_break),
            _ => u32::from(dice.below(300)) % to_break.max(1),
        };
        picture.extend(repeat_n(0, spaces as usize))?;
        let marks = dice.below(3).saturating_add(1);
        picture.extend(repeat_n(1, usize::from(marks)))?;
    }
    Ok(picture)
}

// A clean picture, a spoiled one or a random one.
pub(crate) fn some_picture(
    heap: Global,
    end: &End,
    dice: &mut Dice,
) -> Result<Vec<u8>, AllocError> {
    // at most 300, so the cast keeps it
    let longest = (end.frame_clocks.min(300) as u16).saturating_mul(2);
    let mut picture = match dice.below(6) {
        0 => frames(heap, end, dice)?,
        1 => runs(heap, dice, longest / 4)?,
        2 => runs(heap, dice, longest)?,
        3 => breaks(heap, end, dice)?,
        4 => {
            // as a sender with other settings draws them
            let other = End::short(dice, end.shape);
            frames(heap, &other, dice)?
        }
        _ => {
            let mut spoiled = frames(heap, end, dice)?;
            let run = if dice.one_in(3) { longest } else { 12 };
            spoil(spoiled.as_mut_slice(), dice, run);
            spoiled
        }
    };
    if dice.one_in(50) {
        let place = usize::from(dice.below(200));
        if let Some(byte) = picture.get_mut(place) {
            *byte = 2;
        }
    }
    Ok(picture)
}

// The levels of a picture's bytes; any but 0 and 1 counts as a mark.
pub(crate) fn levels(heap: Global, picture: &[u8]) -> Result<Vec<Level>, AllocError> {
    picture
        .iter()
        .map(|byte| level_of(u32::from((*byte).min(1))))
        .collect(heap)
}

// How many entries are listed.
fn listed(
    picture: &[u8],
    arrivals: &[Arrival],
    entries: &mut [(u16, u8)],
) -> Result<usize, Refusal> {
    if picture.iter().any(|byte| *byte > 1) {
        return Err(Refusal::NotALevel);
    }
    if arrivals.len() > entries.len() {
        return Err(Refusal::TooShort);
    }
    for (place, arrival) in entries.iter_mut().zip(arrivals.iter()) {
        *place = (arrival.entry.character, arrival.entry.flags);
    }
    Ok(arrivals.len())
}

// A list of entries in both emulators, with what each answers.
#[derive(Drop)]
pub(crate) struct Scanned {
    seed: u16,
    end: End,
    picture: Vec<u8>,
    counts: Both<Result<usize, u8>>,
    lists: Both<Vec<(u16, u8)>>,
}

impl Numbered for Scanned {
    fn run(heap: Global, seed: u16) -> Result<Option<Scanned>, AllocError> {
        let Ok((mut dice, end, timing)) = some_end(seed) else {
            return Ok(None);
        };
        let picture = some_picture(heap, &end, &mut dice)?;
        let places = if dice.one_in(10) { 2 } else { 40 };
        let mut own = vec![in heap; KEPT; places]?;
        let mut library = vec![in heap; KEPT; places]?;
        let levels = levels(heap, picture.as_slice())?;
        let arrivals = heard(heap, &end, levels.as_slice())?;
        let counts = Both {
            own: listed(picture.as_slice(), arrivals.as_slice(), own.as_mut_slice()),
            library: scan(&timing, picture.as_slice(), library.as_mut_slice()),
        }
        .numbered();
        Ok(Some(Scanned {
            seed,
            end,
            picture,
            counts,
            lists: Both { own, library },
        }))
    }
}

impl Case for Scanned {
    fn is_same(&self) -> bool {
        self.counts.agree() && self.lists.difference().is_none()
    }
}

impl fmt::Display for Scanned {
    fn fmt<W: fmt::Write>(&self, f: &mut fmt::Formatter<W>) -> fmt::Result {
        let seed = self.seed;
        writeln!(f, "seed {seed}, {}, picture {:?}", self.end, self.picture)?;
        write!(f, "{}", self.counts)?;
        if let Some(place) = self.lists.difference() {
            writeln!(
                f,
                "  the lists, which differ at entry {place}, counted from 0"
            )?;
        }
        write!(f, "{}", self.lists)
    }
}
