// The USART's divider and modulator.
ghost use Rattle.std.specs.Prelude.{◌≡◌, ◌<◌, ◌≤◌, MatchResult};
ghost use Rattle.line.specs.declared.refusal.Refusal.TheVariants.{OutOfRange};
ghost use Rattle.ends.specs.Times.{sum};
ghost use Rattle.usart.specs.Usart.{bit_length, lengths};

use line::Refusal;

#[derive(Clone, Copy, PartialEq, Eq, Debug)]
pub struct Settings {
    pub(crate) divider: u16,
    pub(crate) modulator: u8,
    ghost least: { 3 ≤ divider },
}

impl Settings {
    // It is no `TryFrom`: two plain numbers would have to come as a pair, and a call would no longer say which is which.
    pub fn new(divider: u16, modulator: u8) -> Result<Settings, Refusal>
        ensures { MatchResult result (λ s. (3 ≤ divider) × (s.divider ≡ divider) × (s.modulator ≡ modulator)) (λ e. (divider < 3) × (e ≡ OutOfRange)) }
    {
        if divider < 3 {
            return Err(Refusal::OutOfRange);
        }
        Ok(Settings { divider, modulator })
    }

    pub fn divider(&self) -> u16
        ensures { result ≡ self.now.divider }
    {
        self.divider
    }

    pub fn modulator(&self) -> u8
        ensures { result ≡ self.now.modulator }
    {
        self.modulator
    }

    // How many clocks bit `k` of a frame lasts; the modulator's bits begin anew with each frame.
    pub fn bit_length(&self, k: usize) -> u32
        ensures value { result ≡ bit_length self.now.divider self.now.modulator k }
        ensures bound { result ≤ 65536 }
    {
        u32::from(self.divider) + u32::from((self.modulator >> (k % 8)) & 1)
    }

    // How many clocks the first bits of a frame last, so many of them.
    pub fn clocks(&self, bits: u8) -> u32
        ensures { result ≡ sum (lengths self.now.divider self.now.modulator bits) }
    {
        (0..usize::from(bits)).map(|k| self.bit_length(k)).sum()
    }
}
