// The service port as a kind of end.
ghost use Rattle.std.specs.Prelude.{◌≡◌, ◌≤◌, IfOk};
ghost use Rattle.line.specs.Frames.{first_stop};
ghost use Rattle.ends.specs.Times.{Inside};
ghost use Rattle.ends.specs.Timed.{answered, sample_clocks};
ghost use Rattle.port.specs.Port.{samples, timed, Spaced};

use super::settings::Settings;
use ends::{Kind, Timing};
use line::{Format, Refusal};
use std::array;

// The kind of end that is a laptop's service port.
pub struct Port;

impl Kind for Port {
    type Settings = Settings;

    ghost times = { λ f s. timed f s.divider };

    fn timing(format: Format, settings: Settings) -> Result<Timing, Refusal>
        ensures times { answered result ≡ timed format settings.divider }
        ensures inside { IfOk result (λ t. Inside t.lengths (sample_clocks t) (first_stop format)) }
        ensures spaced { IfOk result (λ t. Spaced settings.divider t.lengths (sample_clocks t) (first_stop format)) }
    {
        if format.address {
            return Err(Refusal::OutOfRange);
        }
        let divider = u32::from(settings.divider);
        Ok(Timing {
            format,
            lengths: [16 * divider; 13],
            samples: sample_table(divider),
            break_length: 160 * divider,
        })
    }
}

// The clocks at which the first twelve bits are sampled, three to a bit.
fn sample_table(divider: u32) -> [u32; 36]
    requires { divider ≤ 4096 }
    ensures { result ≡ samples divider 36 }
{
    array::from_fn(|i| (16 * (i as u32 / 3) + 7 + i as u32 % 3) * divider)
}
