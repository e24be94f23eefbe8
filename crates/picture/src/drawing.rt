// Drawing characters as a sender puts them on the line.
ghost use Rattle.std.specs.Prelude.{◌≡◌, ◌*◌, ◌≤◌, ◌++◌, length, drop, replicate, MatchResult};
ghost use Rattle.line.specs.Levels.{byte_of};
ghost use Rattle.picture.specs.Drawing.{frame_clocks, drawn_frame, drawn, any_wide, draw_answer, AsSent};

use ends::Timing;
use line::{Format, Level, Refusal};

// So many take less than 2^32 bytes, whatever the format and the lengths of its bits.
const MOST_CHARACTERS: usize = 4096;

// Draws the frames of the characters into the picture, one after the other, and answers how many bytes they take.
#[tactic(auto, using(crate::proofs::Clocks::as_sent))]
pub fn draw(timing: &Timing, characters: &[u16], picture: &mut [u8]) -> Result<usize, Refusal>
    ensures answer { result ≡ draw_answer timing.now characters.now (length picture.old) }
    ensures picture { MatchResult result (λ n. picture.new ≡ drawn timing.now characters.now ++ drop n picture.old) (λ _. picture.new ≡ picture.old) }
    ensures sent { AsSent timing.now characters.now }
{
    if any_wide(timing.format, characters) {
        return Err(Refusal::TooWide);
    }
    if characters.len() > MOST_CHARACTERS {
        return Err(Refusal::TooShort);
    }
    let clocks = frame_clocks(timing);
    let size = characters.len() * clocks;
    if picture.len() < size {
        return Err(Refusal::TooShort);
    }
    // each frame goes into the lent rest: of what is written into `chunks_exact_mut` the proof learns the length alone
    for (i, character) in characters.iter().enumerate() {
        draw_frame(timing, *character, &mut picture[i * clocks..]);
    }
    Ok(size)
}

// Whether some character has more bits than the format.
fn any_wide(format: Format, characters: &[u16]) -> bool
    ensures { result ≡ any_wide format characters.now }
{
    let limit = format.characters();
    characters.iter().any(|character| *character >= limit)
}

// How many clocks a frame lasts, whatever its character.
fn frame_clocks(timing: &Timing) -> usize
    ensures value { result ≡ frame_clocks timing.now }
    ensures bound { result ≤ 13 * 65536 }
{
    timing.lengths[..timing.format.bits()]
        .iter()
        .map(|clocks| *clocks as usize)
        .sum()
}

// Draws the frame of a character at the beginning of the part. The place is counted by hand: tried with `split_at_mut` of a part that shrinks
// run by run, the goal that is left says what the whole part became, and of that nothing is known once its pieces are lent.
fn draw_frame(timing: &Timing, character: u16, part: &mut [u8])
    requires { frame_clocks timing.now ≤ length part.old }
    ensures { part.new ≡ drawn_frame timing.now character ++ drop (frame_clocks timing.now) part.old }
{
    let mut digits = timing.format.frame(character);
    let mut at = 0;
    for length in &timing.lengths[..timing.format.bits()] {
        let clocks = *length as usize;
        draw_run(&mut part[at..], clocks, Level::from_digit(digits % 2));
        digits /= 2;
        at += clocks;
    }
}

// Draws one level for so many clocks at the beginning of the part.
fn draw_run(part: &mut [u8], clocks: usize, level: Level)
    requires { clocks ≤ length part.old }
    ensures { part.new ≡ replicate clocks (byte_of level) ++ drop clocks part.old }
{
    part[..clocks].fill(u8::from(level));
}
