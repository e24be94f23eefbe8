// Kinds of ends.
ghost use Rattle.std.specs.Prelude.{◌≡◌, Result};
ghost use Rattle.line.specs.declared.format.Format.{Format};
ghost use Rattle.line.specs.declared.refusal.Refusal.{Refusal};
ghost use Rattle.ends.specs.Times.{Times};
ghost use Rattle.ends.specs.Timed.{answered};

use super::timing::Timing;
use line::{Format, Refusal};

// A kind of end names the record of its own settings, and says what times a format and such settings give, or
// that it cannot have them.
pub trait Kind {
    type Settings;

    ghost times: { Format → Self.Settings → Result Times Refusal };

    fn timing(format: Format, settings: Self::Settings) -> Result<Timing, Refusal>
        ensures { answered result ≡ times format settings };
}
