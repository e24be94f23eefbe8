// Scanning a picture for characters.
ghost use Rattle.std.specs.Prelude.{◌≡◌, ℕ, ◌+◌, ◌<◌, ◌≤◌, ◌++◌, length, drop, MatchResult};
ghost use Rattle.std.specs.Option.{option_to_list};
ghost use Rattle.ends.specs.BareReceiver.{meant, at_rest};
ghost use Rattle.ends.specs.Runs.{taken_down};
ghost use Rattle.picture.specs.Scanning.{levels, any_other, listed, after_listed, piece_answer, scan_answer, Written, Recovers, GoesOn};

use super::scanner::Scanner;
use ends::{BareReceiver, Receiver, Timing};
use line::Refusal;

// Gives the picture to a new receiver and lists every entry, read as it arrives; answers how many there are.
pub fn scan<E: From<(u16, u8)> + Copy>(
    timing: &Timing,
    picture: &[u8],
    entries: &mut [E],
) -> Result<usize, Refusal>
    ensures answer { result ≡ scan_answer timing.now picture.now (length entries.old) }
    ensures entries { MatchResult result (λ n. Written E.from_gives (listed timing.now picture.now) n entries.new entries.old) (λ _. entries.new ≡ entries.old) }
    ensures recovers { Recovers timing.now picture.now (listed timing.now picture.now) }
{
    let mut scanner = Scanner::new(timing);
    scanner.scan(picture, entries)
}

impl Scanner {
    // A scanner that has seen nothing yet.
    pub fn new(timing: &Timing) -> Scanner
        ensures { meant result.receiver ≡ at_rest timing.now }
    {
        Scanner {
            receiver: BareReceiver::new(*timing),
        }
    }

    // Lists every entry that arrives with the next piece of the picture; answers how many there are.
    #[tactic(auto, using(crate::proofs::Listing::goes_on))]
    pub fn scan<E: From<(u16, u8)> + Copy>(
        &mut self,
        piece: &[u8],
        entries: &mut [E],
    ) -> Result<usize, Refusal>
        ensures answer { result ≡ piece_answer (meant self.old.receiver) piece.now (length entries.old) }
        ensures entries { MatchResult result (λ n. Written E.from_gives (taken_down (meant self.old.receiver) (levels piece.now)) n entries.new entries.old) (λ _. entries.new ≡ entries.old) }
        ensures state { MatchResult result (λ _. meant self.new.receiver ≡ after_listed (meant self.old.receiver) (levels piece.now)) (λ _. meant self.new.receiver ≡ meant self.old.receiver) }
        ensures pieces { GoesOn (meant self.old.receiver) piece.now }
    {
        if has_other(piece) {
            return Err(Refusal::NotALevel);
        }
        // nothing may be written before it is known that all of it fits
        let found = self.count(piece);
        if entries.len() < found {
            return Err(Refusal::TooShort);
        }
        self.list(piece, entries);
        Ok(found)
    }

    // The entry that arrives with the first of the bytes that are left, if one does, and how many these are. Laid out in both loops: as a
    // call it cost a third more time.
    #[inline(always)]
    fn step(&mut self, rest: &[u8]) -> (usize, Option<(u16, u8)>)
        requires { 0 < length rest.now }
        ensures within { result.0 ≤ length rest.now }
        ensures some { 0 < result.0 }
        ensures state { after_listed (meant self.old.receiver) (levels rest.now) ≡ after_listed (meant self.new.receiver) (levels (drop result.0 rest.now)) }
        ensures taken { taken_down (meant self.old.receiver) (levels rest.now) ≡ option_to_list result.1 ++ taken_down (meant self.new.receiver) (levels (drop result.0 rest.now)) }
    {
        let heard = self.receiver.hear_some(rest);
        (heard, self.receiver.read().ok())
    }

    // How many entries arrive. Counted by hand: a step passes over several bytes, so a chain would need an iterator of our own with this loop in
    // its `next`, for this one function, since `list` writes by place and keeps its loop.
    fn count(mut self, piece: &[u8]) -> usize
        ensures { result ≡ length (taken_down (meant self.receiver) (levels piece.now)) }
    {
        let mut rest = piece;
        let mut found = 0;
        while !rest.is_empty() {
            let (heard, entry) = self.step(rest);
            found += usize::from(entry.is_some());
            rest = &rest[heard..];
        }
        found
    }

    // The next place is counted by hand. Tried with places taken from `entries.iter_mut()` by `next`: the goal that is left says what stands
    // in the entries in the end, and of that nothing is known once the loan is over.
    fn list<E: From<(u16, u8)> + Copy>(&mut self, piece: &[u8], entries: &mut [E])
        requires { length (taken_down (meant self.old.receiver) (levels piece.now)) ≤ length entries.old }
        ensures entries { Written E.from_gives (taken_down (meant self.old.receiver) (levels piece.now)) (length (taken_down (meant self.old.receiver) (levels piece.now))) entries.new entries.old }
        ensures state { meant self.new.receiver ≡ after_listed (meant self.old.receiver) (levels piece.now) }
    {
        let mut rest = piece;
        let mut found = 0;
        while !rest.is_empty() {
            let (heard, entry) = self.step(rest);
            if let Some(entry) = entry {
                entries[found] = E::from(entry);
                found += 1;
            }
            rest = &rest[heard..];
        }
    }
}

// So many bytes are looked at before a refusal may come.
const PART: usize = 4096;

// Whether some byte is neither 0 nor 1. It stops behind the part with the first such byte, so that a refusal doesn't cost the whole picture.
fn has_other(picture: &[u8]) -> bool
    ensures { result ≡ any_other picture.now }
{
    for part in picture.chunks(PART) {
        if has_other_in(part) {
            return true;
        }
    }
    false
}

// The same of one part. There is no way out before its end, so that the compiler can take many bytes at once: with `any` a scan took a fifth
// longer when it clocked every byte, and would lose more now.
fn has_other_in(part: &[u8]) -> bool
    ensures { result ≡ any_other part.now }
{
    part.iter()
        .copied()
        .max()
        .is_some_and(|largest| largest > 1)
}
