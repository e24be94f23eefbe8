// The service port's divider.
ghost use Rattle.std.specs.Prelude.{◌≡◌, ◌≤◌, MatchResult};
ghost use Rattle.port.specs.Port.{InRange};
ghost use Rattle.line.specs.declared.refusal.Refusal.TheVariants.{OutOfRange};

use line::Refusal;

#[derive(Clone, Copy, PartialEq, Eq, Debug)]
pub struct Settings {
    pub(crate) divider: u16,
    ghost least: { 1 ≤ divider },
    ghost most: { divider ≤ 4096 },
}

impl Settings {
    // It is no `TryFrom`: callers of both kinds of end make their settings by `new`, and a number says nothing of being a divider.
    pub fn new(divider: u16) -> Result<Settings, Refusal>
        ensures { MatchResult result (λ s. InRange divider × (s.divider ≡ divider)) (λ e. (InRange divider → ⊥) × (e ≡ OutOfRange)) }
    {
        if !(1..=4096).contains(&divider) {
            return Err(Refusal::OutOfRange);
        }
        Ok(Settings { divider })
    }

    pub fn divider(&self) -> u16
        ensures { result ≡ self.now.divider }
    {
        self.divider
    }
}
