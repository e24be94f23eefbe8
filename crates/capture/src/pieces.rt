// The pieces of a capture, one after the other, from any reader.
ghost use Rattle.std.specs.Prelude.{◌≡◌, ◌+◌, ◌-◌, ◌^◌, ◌<◌, ◌++◌, min, length, take, drop, nat_lt, position, IfOk, IfErr, MatchResult};
ghost use Rattle.std.specs.Io.KnownBytes.{IsAtEnd};
ghost use Rattle.ends.specs.BareReceiver.{meant, at_rest};
ghost use Rattle.ends.specs.Runs.{taken_down};
ghost use Rattle.picture.specs.Scanning.{levels, after_listed};
ghost use Rattle.capture.specs.Captures.{GivesLevels, HasRead, IsFaultIn, IsFaultAfter, HasTooMany, Continues};

use ends::Timing;
use line::Refusal;
use picture::Scanner;
use std::io;
use std::io::Read;

// Why a capture is not scanned further.
#[derive(Drop)]
pub enum Fault {
    Unread(io::Error),
    // the byte with this number, from 0, is neither 0 nor 1
    NotALevel(u64),
    // the piece has more entries than the list has places
    TooShort,
}

// How many bytes a piece has, and how many entries arrive with it.
#[derive(Clone, Copy, PartialEq, Eq, Debug)]
pub struct Piece {
    pub bytes: usize,
    pub entries: usize,
}

// The place of the first byte that is no level, if there is one.
fn first_other(piece: &[u8]) -> Option<usize>
    ensures { result ≡ position (nat_lt 1) piece.now }
{
    piece.iter().position(|byte| *byte > 1)
}

// Reads the next levels of a capture of which so many bytes came before: as many as the buffer takes or fewer, and none at its end. The reader
// and the buffer are lent at each call, and stand in no struct: between two calls the program reads what the buffer holds.
pub fn next_levels<I: Read>(input: &mut I, buffer: &mut [u8], before: u64) -> Result<usize, Fault>
    ensures read { MatchResult result (λ n. GivesLevels (I.remaining input.old) (I.remaining input.new) (length buffer.new) n (take n buffer.new)) (IsFaultIn (I.remaining input.old) (I.remaining input.new) before buffer.new ⊥) }
{
    let count = input.read(buffer).map_err(Fault::Unread)?;
    match first_other(&buffer[..count]) {
        Some(at) => Err(Fault::NotALevel(before.saturating_add(at as u64))),
        None => Ok(count),
    }
}

// Reads a capture to its end, and lists nothing; answers how many bytes it has, and 2 ^ 64 - 1 for any more.
pub fn look_through<I: Read>(input: &mut I, buffer: &mut [u8]) -> Result<u64, Fault>
    ensures read { IfOk result (HasRead (I.remaining input.old) (I.remaining input.new)) }
    ensures fault { IfErr result (IsFaultAfter (I.remaining input.old) (I.remaining input.new) buffer.new) }
    ensures end { IfOk result (λ n. 0 < length buffer.old → n < 2 ^ 64 - 1 → IsAtEnd (I.remaining input.new)) }
{
    let mut before = 0u64;
    // how long the input is nobody knows, and each loop must end
    for _turn in 0..u64::MAX {
        let count = next_levels(input, buffer, before)?;
        if count == 0 {
            return Ok(before);
        }
        before = before.saturating_add(count as u64);
    }
    Ok(before)
}

// A scan of a capture, as far as it has come.
#[derive(Clone, Copy)]
pub struct Pieces {
    scanner: Scanner,
    before: u64,
}

impl Pieces {
    // A scan that has read nothing yet.
    pub fn new(timing: &Timing) -> Pieces
        ensures rest { meant result.scanner.receiver ≡ at_rest timing.now }
        ensures before { result.before ≡ 0 }
    {
        Pieces {
            scanner: Scanner::new(timing),
            before: 0,
        }
    }

    // How many bytes came before, and 2 ^ 64 - 1 for any more.
    pub fn before(&self) -> u64
        ensures { result ≡ self.now.before }
    {
        self.before
    }

    // Reads the next piece, and lists the entries that arrive with it.
    pub fn next<I: Read>(
        &mut self,
        input: &mut I,
        buffer: &mut [u8],
        entries: &mut [(u16, u8)],
    ) -> Result<Piece, Fault>
        ensures goes_on { IfOk result (λ piece. Continues (I.remaining input.old) (I.remaining input.new) (meant self.old.scanner.receiver) (meant self.new.scanner.receiver) (take piece.entries entries.new)) }
        ensures read { IfOk result (λ piece. GivesLevels (I.remaining input.old) (I.remaining input.new) (length buffer.new) piece.bytes (take piece.bytes buffer.new)) }
        ensures fault { IfErr result (IsFaultIn (I.remaining input.old) (I.remaining input.new) self.old.before buffer.new (HasTooMany (I.remaining input.old) (I.remaining input.new) (meant self.old.scanner.receiver) (length entries.old) buffer.new)) }
        ensures found { IfOk result (λ piece. piece.entries ≡ length (taken_down (meant self.old.scanner.receiver) (levels (take piece.bytes buffer.new)))) }
        ensures entries { MatchResult result (λ piece. entries.new ≡ taken_down (meant self.old.scanner.receiver) (levels (take piece.bytes buffer.new)) ++ drop piece.entries entries.old) (λ _. entries.new ≡ entries.old) }
        ensures scanner { MatchResult result (λ piece. meant self.new.scanner.receiver ≡ after_listed (meant self.old.scanner.receiver) (levels (take piece.bytes buffer.new))) (λ _. meant self.new.scanner.receiver ≡ meant self.old.scanner.receiver) }
        ensures counted { MatchResult result (λ piece. self.new.before ≡ min (self.old.before + piece.bytes) (2 ^ 64 - 1)) (λ _. self.new.before ≡ self.old.before) }
    {
        let bytes = next_levels(input, buffer, self.before)?;
        // each byte is a level, so there is nothing else to refuse
        let Ok(found) = self.scanner.scan(&buffer[..bytes], entries) else {
            return Err(Fault::TooShort);
        };
        self.before = self.before.saturating_add(bytes as u64);
        Ok(Piece {
            bytes,
            entries: found,
        })
    }
}
