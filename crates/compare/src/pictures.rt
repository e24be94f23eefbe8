// Pictures drawn.
use super::dice::Dice;
use super::levels::byte_of;
use super::said::Both;
use super::shape::Shape;
use super::tally::{Case, Numbered};
use super::times::{End, some_end};
use line::Refusal;
use picture::draw;
use std::alloc::{AllocError, Global};
use std::fmt;

// Stands where a picture must be left alone.
const KEPT: u8 = 9;

// A few characters, and now and then one that is too wide; in two cases as many as can be drawn, and one more.
fn some_characters(
    heap: Global,
    shape: Shape,
    dice: &mut Dice,
    seed: u16,
) -> Result<Vec<u16>, AllocError> {
    let (count, wide) = match seed {
        0 => (4096, 0),
        1 => (4097, 0),
        _ => (dice.below(5), 40),
    };
    (0..count)
        .map(|_| shape.character(dice, wide))
        .collect(heap)
}

// How many clocks are drawn.
fn by_levels(end: &End, characters: &[u16], picture: &mut [u8]) -> Result<usize, Refusal> {
    let all = end.shape.characters();
    if characters.iter().any(|character| *character >= all) {
        return Err(Refusal::TooWide);
    }
    let clocks = end.frame_clocks.max(1) as usize;
    let needed = clocks.saturating_mul(characters.len());
    if characters.len() > 4096 || needed > picture.len() {
        return Err(Refusal::TooShort);
    }
    for (character, frame) in characters.iter().zip(picture.chunks_exact_mut(clocks)) {
        for (clock, byte) in (0..end.frame_clocks).zip(frame.iter_mut()) {
            *byte = byte_of(end.level(*character, clock));
        }
    }
    Ok(needed)
}

// A picture in both emulators, with what each answers.
#[derive(Drop)]
pub(crate) struct Drawn {
    seed: u16,
    end: End,
    characters: Vec<u16>,
    places: usize,
    clocks: Both<Result<usize, u8>>,
    pictures: Both<Vec<u8>>,
}

impl Numbered for Drawn {
    fn run(heap: Global, seed: u16) -> Result<Option<Drawn>, AllocError> {
        let Ok((mut dice, end, timing)) = some_end(seed) else {
            return Ok(None);
        };
        let characters = some_characters(heap, end.shape, &mut dice, seed)?;
        let needed = characters.len().saturating_mul(end.frame_clocks as usize);
        // sometimes a byte too short
        let places = needed
            .saturating_add(usize::from(dice.below(12)))
            .saturating_sub(1);
        let mut own = vec![in heap; KEPT; places]?;
        let mut library = vec![in heap; KEPT; places]?;
        let clocks = Both {
            own: by_levels(&end, characters.as_slice(), own.as_mut_slice()),
            library: draw(&timing, characters.as_slice(), library.as_mut_slice()),
        }
        .numbered();
        Ok(Some(Drawn {
            seed,
            end,
            characters,
            places,
            clocks,
            pictures: Both { own, library },
        }))
    }
}

impl Case for Drawn {
    fn is_same(&self) -> bool {
        self.clocks.agree() && self.pictures.difference().is_none()
    }
}

impl fmt::Display for Drawn {
    fn fmt<W: fmt::Write>(&self, f: &mut fmt::Formatter<W>) -> fmt::Result {
        let Drawn {
            seed,
            end,
            places,
            ..
        } = self;
        let characters = &self.characters;
        writeln!(
            f,
            "seed {seed}, {end}, characters {characters:?}, {places} places"
        )?;
        write!(f, "{}", self.clocks)?;
        if let Some(clock) = self.pictures.difference() {
            writeln!(
                f,
                "  the pictures, which differ at clock {clock}, counted from 0"
            )?;
        }
        write!(f, "{}", self.pictures)
    }
}
