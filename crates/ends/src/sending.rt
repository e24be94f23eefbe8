// How the bare sender sends.
ghost use Rattle.std.specs.Prelude.{◌≡◌, ◌+◌, ◌%◌, ◌^◌, ◌<◌, ◌&&◌, [], ◌∷◌};
ghost use Rattle.line.specs.Frames.{frame, frame_bits};
ghost use Rattle.line.specs.Levels.{level_of};
ghost use Rattle.ends.specs.Times.{held};
ghost use Rattle.ends.specs.Shifts.{bit_of, clocks_of, shift_levels, left_of};
ghost use Rattle.ends.specs.Sender.{empty, ready};
ghost use Rattle.ends.specs.BareSender.{meant, at_rest};
ghost use Rattle.std.proofs.Common.{rules};

use super::bare_sender::BareSender;
use super::sender::Sender;
use super::shift::Shift;
use super::timing::Timing;
use line::{Format, Level, Refusal};

impl Shift {
    fn begin(timing: &Timing, character: u16) -> Shift
        ensures levels { shift_levels timing.now.format timing.now.lengths result ≡ held timing.now.lengths (frame timing.now.format character) }
        ensures bit { result.bit ≡ 0 }
        ensures clocks { 0 < result.clocks }
    {
        Shift {
            digits: timing.format.frame(character),
            bit: 0,
            clocks: timing.lengths[0],
        }
    }

    fn level(self) -> Level
        ensures { result ≡ level_of (self.digits % 2) }
    {
        Level::from_digit(self.digits % 2)
    }

    // What is left after this clock.
    fn after(self, timing: &Timing) -> Option<Shift>
        requires { (self.bit < frame_bits timing.now.format) × (0 < self.clocks) }
        ensures levels { shift_levels timing.now.format timing.now.lengths self ≡ level_of (self.digits % 2) ∷ left_of timing.now.format timing.now.lengths result }
        ensures bit { bit_of result < frame_bits timing.now.format }
        ensures clocks { 0 < clocks_of result }
    {
        if self.clocks > 1 {
            return Some(Shift {
                clocks: self.clocks - 1,
                ..self
            });
        }
        let next = self.bit + 1;
        if next == timing.format.bits() {
            return None;
        }
        Some(Shift {
            digits: self.digits / 2,
            bit: next,
            clocks: timing.lengths[next],
        })
    }
}

impl BareSender {
    pub fn new(timing: Timing) -> BareSender
        ensures { meant result ≡ at_rest timing }
    {
        BareSender {
            timing,
            shift: None,
            waiting: None,
        }
    }

    // Whether no character waits.
    pub fn has_room(&self) -> bool
        ensures { result ≡ empty (meant self.now).waiting }
    {
        self.waiting.is_none()
    }

    // Whether nothing is left on the line and no character waits.
    pub fn is_done(&self) -> bool
        ensures { result ≡ empty (meant self.now).left && empty (meant self.now).waiting }
    {
        self.shift.is_none() && self.has_room()
    }

    // Where nothing is left on the line, the character that waits moves into the shift register.
    fn make_ready(&mut self)
        ensures { meant self.new ≡ ready (meant self.old) (meant self.old).left (meant self.old).waiting }
    {
        if self.shift.is_none() {
            self.shift = self
                .waiting
                .take()
                .map(|character| Shift::begin(&self.timing, character));
        }
    }
}

impl Sender for BareSender {
    ghost meaning = { meant };

    ghost sound = { Prim.search rules };

    fn format(&self) -> Format {
        self.timing.format
    }

    fn bit_length(&self, bit: usize) -> u32 {
        self.timing.lengths.get(bit).copied().unwrap_or(0)
    }

    fn load(&mut self, character: u16) -> Result<(), Refusal> {
        if character >= self.timing.format.characters() {
            return Err(Refusal::TooWide);
        }
        if self.waiting.is_some() {
            return Err(Refusal::Full);
        }
        self.waiting = Some(character);
        Ok(())
    }

    fn clock(&mut self) -> Level {
        self.make_ready();
        let Some(shift) = self.shift else {
            return Level::Mark;
        };
        self.shift = shift.after(&self.timing);
        shift.level()
    }
}
