// A receiver that runs on a table of times, with room for one entry.
ghost use Rattle.std.specs.Prelude.{◌≡◌, ◌<◌};
ghost use Rattle.ends.specs.Times.{samples_per_frame};
ghost use Rattle.ends.specs.Timed.{sample_clocks};
ghost use Rattle.ends.specs.Samples.{taken_by, due_by, spaces_by, unsampled_by, going_by};

use super::doing::Doing;
use super::timing::Timing;
use line::Level;

#[derive(Clone, Copy)]
pub struct BareReceiver {
    pub(crate) timing: Timing,
    pub(crate) unread: Option<(u16, u8)>,
    pub(crate) previous: Level,
    pub(crate) doing: Doing,
    // here and not with the samples, since only the receiver has the timing that they follow
    ghost in_step: { taken_by doing ≡ due_by (sample_clocks timing) doing },
    ghost unended: { taken_by doing < samples_per_frame timing.format },
    ghost going: { unsampled_by timing.format doing ≡ going_by doing },
    ghost unbroken: { spaces_by doing < timing.break_length },
}
