// Runs of equal levels in a picture.
ghost use Rattle.std.specs.Prelude.{◌≡◌, ℕ, ◌-◌, ◌<◌, ◌≤◌, length, ◌≢◌, slice_index};
ghost use Rattle.line.specs.Levels.{level_of};

use line::Level;

// So many clocks of one level.
#[derive(Clone, Copy, PartialEq, Eq, Debug)]
pub struct Run {
    // the clock that it begins with
    pub from: usize,
    // the byte of its level
    pub byte: u8,
    pub clocks: usize,
}

impl Run {
    pub fn level(self) -> Level
        ensures { result ≡ level_of self.byte }
    {
        Level::from_digit(u16::from(self.byte))
    }
}

// The runs of a picture, one after the other. `chunk_by` gives the bytes and not the clock that a run begins with.
#[derive(Clone, Copy)]
pub struct Runs<'a> {
    picture: &'a [u8],
    // the clock that the next one begins with
    at: usize,
    ghost within: { at ≤ length picture.now },
}

impl<'a> Runs<'a> {
    pub fn new(picture: &'a [u8]) -> Runs<'a>
        ensures picture { result.picture.now ≡ picture.now }
        ensures at { result.at ≡ 0 }
    {
        Runs { picture, at: 0 }
    }
}

impl<'a> Iterator for Runs<'a> {
    type Item = Run;

    ghost use Rattle.std.specs.Iterator.{at_most};
    ghost use Rattle.picture.specs.Runs.{GivesRun};

    ghost next_gives = { GivesRun };

    ghost remaining = { λ s. at_most (length s.picture.now - s.at) };

    fn next(&mut self) -> Option<Run> {
        let left = &self.picture[self.at..];
        let byte = *left.first()?;
        let run = Run {
            from: self.at,
            byte,
            clocks: run_length(left),
        };
        self.at += run.clocks;
        Some(run)
    }
}

// How many bytes at the beginning of a picture are equal to its first.
pub fn run_length(picture: &[u8]) -> usize
    ensures within { result ≤ length picture.now }
    ensures equal { (k : ℕ) → k < result → slice_index picture.now k ≡ slice_index picture.now 0 }
    ensures ends { result < length picture.now → slice_index picture.now result ≢ slice_index picture.now 0 }
    ensures some { 0 < length picture.now → 0 < result }
{
    picture
        .iter()
        .take_while(|byte| **byte == picture[0])
        .count()
}
