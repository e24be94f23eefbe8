// The divider and the modulator as the registers hold them.
ghost use Rattle.std.specs.Prelude.{◌≡◌, ◌<◌, ◌≤◌, MatchResult};
ghost use Rattle.line.specs.declared.refusal.Refusal.TheVariants.{OutOfRange};
ghost use Rattle.chip.specs.Chips.{divider};

use line::Refusal;
use usart::Settings;

#[derive(Clone, Copy, PartialEq, Eq, Debug, Default)]
pub struct Rate {
    pub modulator: u8,
    pub low: u8,
    pub high: u8,
}

impl TryFrom<Rate> for Settings {
    type Error = Refusal;

    ghost try_from_gives = { λ rate result. MatchResult result (λ s. (3 ≤ divider rate) × (s.divider ≡ divider rate) × (s.modulator ≡ rate.modulator)) (λ e. (divider rate < 3) × (e ≡ OutOfRange)) };

    fn try_from(rate: Rate) -> Result<Settings, Refusal> {
        let divider = u16::from_be_bytes([rate.high, rate.low]);
        Settings::new(divider, rate.modulator)
    }
}
