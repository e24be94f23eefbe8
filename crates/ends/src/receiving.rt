// How the bare receiver receives.
ghost use Rattle.std.specs.Prelude.{◌≡◌, ℕ, false, ◌+◌, ◌*◌, ◌^◌, ◌<◌, ◌≤◌, [], ◌∷◌, ◌++◌, length, replicate, slice_index_or, if◌then◌else◌, slice_get};
ghost use Rattle.std.specs.Option.{option_to_list};
ghost use Rattle.line.specs.declared.level.Level.TheVariants.{Space, Mark};
ghost use Rattle.line.specs.Levels.{number, low_bits};
ghost use Rattle.line.specs.Frames.{first_stop};
ghost use Rattle.ends.specs.Times.{samples_per_frame};
ghost use Rattle.ends.specs.Receiver.{falling_on, falling_before, majority, decided, entry_of, joined, with, heard_in_frame, nothing, idle, framing, going_on, taken_now};
ghost use Rattle.ends.specs.Samples.{taken};
ghost use Rattle.ends.specs.BareReceiver.{meant, at_rest, heard_of};
ghost use Rattle.ends.specs.Timed.{sample_clocks};
ghost use Rattle.ends.specs.Soundness.{sound_bare};

use super::bare_receiver::BareReceiver;
use super::doing::{Doing, Progress};
use super::receiver::Receiver;
use super::samples::Samples;
use super::timing::Timing;
use line::{Format, Level, Refusal};

// The flags of an entry, each one bit of its second number: an entry is a pair of plain numbers by a rule of the project.
pub const OVERRUN: u8 = 1;

pub const PARITY: u8 = 2;

pub const FRAMING: u8 = 4;

pub const BREAK: u8 = 8;

impl Timing {
    // The clock that the table has for this sample, whether or not the format uses it.
    fn in_table(&self, sample: usize) -> Option<u32>
        ensures { result ≡ slice_get self.now.samples sample }
    {
        self.samples.get(sample).copied()
    }

    // The clock of this sample, if a frame has so many.
    fn sample(&self, sample: usize) -> Option<u32>
        ensures { result ≡ slice_get (sample_clocks self.now) sample }
    {
        self.samples[..self.sample_count()].get(sample).copied()
    }
}

impl Samples {
    fn none() -> Samples
        ensures { result.count ≡ 0 }
    {
        Samples {
            levels: [Level::Space; 36],
            count: 0,
        }
    }

    fn push(&mut self, level: Level)
        requires { self.old.count < 36 }
        ensures taken { taken self.new ≡ taken self.old ++ level ∷ [] }
        ensures count { self.new.count ≡ self.old.count + 1 }
    {
        // read once: the compiler takes the level that is written for the count as well
        let count = self.count;
        self.levels[count] = level;
        self.count = count + 1;
    }

    // Takes the level down for each sample that falls on this clock of the frame, and answers whether one does. The table's samples
    // past the frame's last fall on later clocks.
    fn take_down(&mut self, timing: &Timing, clock: u32, level: Level) -> bool
        requires in_step { self.old.count ≡ falling_before clock (sample_clocks timing.now) }
        requires unended { self.old.count < samples_per_frame timing.now.format }
        ensures taken { taken self.new ≡ taken_now (sample_clocks timing.now) clock (taken self.old) level }
        ensures none { result ≡ false → self.new.count ≡ self.old.count }
    {
        // A flag: by `self.count > before` a run of a link took 1.5 to 3.4 in a hundred more instructions; a scan took the same.
        let mut some = false;
        while timing.in_table(self.count) == Some(clock) {
            self.push(level);
            some = true;
        }
        some
    }

    // The level that two of the bit's three samples have.
    fn bit(&self, k: usize) -> Level
        requires { 3 * k + 2 < self.now.count }
        ensures { result ≡ majority (slice_index_or self.now.levels (3 * k) Space) (slice_index_or self.now.levels (3 * k + 1) Space) (slice_index_or self.now.levels (3 * k + 2) Space) }
    {
        majority(
            self.levels[3 * k],
            self.levels[3 * k + 1],
            self.levels[3 * k + 2],
        )
    }

    // The bits decided, as binary digits, the start bit being the least significant. Out of line, as the beginning is.
    #[inline(never)]
    fn digits(&self, bits: usize) -> u16
        requires { self.now.count ≡ 3 * bits }
        ensures value { result ≡ number (decided (taken self.now)) }
        ensures bound { result < 2 ^ bits }
    {
        // A loop: as a `fold` the goals left were that the digits fit at each turn and what they come to; the library has no lemma for
        // a range from its end.
        let mut digits = 0;
        for k in (0..bits).rev() {
            digits = 2 * digits + u16::from(u8::from(self.bit(k)));
        }
        digits
    }

    // Whether the start bit was decided as mark.
    fn is_false_start(&self) -> bool
        ensures { (n : ℕ) → (if result then idle else framing n (taken self.now)) ≡ going_on (decided (taken self.now)) n (taken self.now) }
    {
        self.count >= 3 && self.bit(0) == Level::Mark
    }

    // What a clock that does not end the frame comes to.
    fn progress(&self) -> Progress
        ensures { (n : ℕ) → heard_of result n (taken self.now) ≡ nothing (going_on (decided (taken self.now)) n (taken self.now)) }
    {
        if self.is_false_start() {
            Progress::FalseStart
        } else {
            Progress::GoesOn
        }
    }

    // The samples of a frame after its first clock, whose level is space.
    fn begin(timing: &Timing) -> Samples
        ensures taken { taken result ≡ taken_now (sample_clocks timing.now) 0 [] Space }
        ensures heard { heard_in_frame timing.now.format 0 (taken result) ≡ nothing (framing 0 (taken result)) }
        ensures in_step { result.count ≡ falling_before 1 (sample_clocks timing.now) }
        ensures unended { result.count < samples_per_frame timing.now.format }
    {
        let mut samples = Samples::none();
        samples.take_down(timing, 0, Level::Space);
        samples
    }

    // One more clock of the frame.
    #[inline(always)]
    fn clock(&mut self, timing: &Timing, clock: u32, level: Level) -> Progress
        requires in_step { self.old.count ≡ falling_before clock (sample_clocks timing.now) }
        requires unended { self.old.count < samples_per_frame timing.now.format }
        ensures taken { taken self.new ≡ taken_now (sample_clocks timing.now) clock (taken self.old) level }
        ensures heard { heard_of result clock (taken self.new) ≡ heard_in_frame timing.now.format clock (taken self.new) }
        ensures in_step { self.new.count ≡ falling_before (clock + 1) (sample_clocks timing.now) }
        ensures unended { result ≡ Progress.GoesOn → self.new.count < samples_per_frame timing.now.format }
    {
        // only a clock that takes a sample down can be the last
        if self.take_down(timing, clock, level) && self.count == timing.sample_count() {
            let digits = self.digits(timing.format.first_stop() + 1);
            return Progress::Over(entry(timing.format, digits));
        }
        self.progress()
    }
}

fn majority(first: Level, second: Level, third: Level) -> Level
    ensures { result ≡ majority first second third }
{
    if first == second { first } else { third }
}

// The character and the flags of a frame whose bits were decided as these digits.
fn entry(format: Format, digits: u16) -> (u16, u8)
    ensures { result ≡ entry_of format (low_bits (1 + first_stop format) digits) }
{
    let characters = format.characters();
    let parities = format.parity_values();
    let character = digits / 2 % characters;
    let above = digits / 2 / characters;
    let parity = unless(above % parities == format.parity_bit(character), PARITY);
    let framing = unless(above / parities % 2 == 1, FRAMING);
    (character, parity + framing)
}

// A flag that is set where the rule does not hold.
fn unless(holds: bool, flag: u8) -> u8
    ensures { result ≡ if holds then 0 else flag }
{
    if holds { 0 } else { flag }
}

// The unread entry after this one has arrived: one that was never read leaves its flags.
fn arrived(unread: Option<(u16, u8)>, entry: (u16, u8)) -> (u16, u8)
    ensures { result ∷ [] ≡ joined 1 (option_to_list unread) entry }
{
    let (character, flags) = entry;
    unread.map_or(entry, |(_, lost)| (character, flags | lost | OVERRUN))
}

impl BareReceiver {
    pub fn new(timing: Timing) -> BareReceiver
        ensures { meant result ≡ at_rest timing }
    {
        BareReceiver {
            timing,
            unread: None,
            previous: Level::Mark,
            doing: Doing::Idle,
        }
    }

    // The first clock of a frame, whose level is space. A call: laid out in a clock, the compiler cleared the room for the samples at every
    // clock.
    #[inline(never)]
    fn begin_frame(&mut self)
        ensures { meant self.new ≡ with (meant self.old) (meant self.old).unread (meant self.old).previous (framing 0 (taken_now (sample_clocks self.old.timing) 0 [] Space)) }
    {
        self.doing = Doing::Framing {
            clock: 0,
            samples: Samples::begin(&self.timing),
        };
    }
}

impl Receiver for BareReceiver {
    ghost meaning = { meant };

    ghost sound = { λ r. sound_bare r.timing (meant r).unread (meant r).previous (meant r).doing };

    fn format(&self) -> Format {
        self.timing.format
    }

    fn sample_clock(&self, sample: usize) -> u32 {
        self.timing.sample(sample).unwrap_or(0)
    }

    // laid out in the loops of callers: as a call a scan, when each of its clocks was one, took a third more time
    #[inline(always)]
    fn clock(&mut self, level: Level) {
        let previous = self.previous;
        self.previous = level;
        let timing = &self.timing;
        // a match in place over what it is doing and the two levels, as the rule is stated
        match (&mut self.doing, previous, level) {
            (Doing::Idle | Doing::Counting { .. }, Level::Mark, Level::Space) => self.begin_frame(),
            (Doing::Idle, _, _) => {}
            (Doing::Framing { clock, samples }, _, _) => {
                *clock += 1;
                match samples.clock(timing, *clock, level) {
                    Progress::GoesOn => {}
                    Progress::FalseStart => self.doing = Doing::Idle,
                    Progress::Over(entry) => {
                        // a frame has no flags but PARITY and FRAMING, and this is the test that the spec has
                        let next = if entry.1 < FRAMING {
                            Doing::Idle
                        } else {
                            Doing::Counting { spaces: 0 }
                        };
                        self.doing = next;
                        self.unread = Some(arrived(self.unread, entry));
                    }
                }
            }
            (Doing::Counting { spaces }, Level::Space, Level::Space) => {
                if *spaces + 1 < timing.break_length {
                    *spaces += 1;
                } else {
                    self.doing = Doing::Idle;
                    self.unread = Some(arrived(self.unread, (0, BREAK)));
                }
            }
            (Doing::Counting { .. }, _, Level::Mark) => self.doing = Doing::Idle,
        }
    }

    fn read(&mut self) -> Result<(u16, u8), Refusal> {
        // No `take`: it would clear the place at each read, and most find nothing.
        let entry = self.unread.ok_or(Refusal::NothingUnread)?;
        self.unread = None;
        Ok(entry)
    }
}
