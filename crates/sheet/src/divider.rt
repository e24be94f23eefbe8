// The divider that a laptop's port takes for a baud rate.
ghost use Rattle.std.specs.Prelude.{◌≡◌, ℕ, ◌≤◌, MatchResult};
ghost use Rattle.line.specs.declared.refusal.Refusal.TheVariants.{OutOfRange};
ghost use Rattle.sheet.specs.Divider.{Nearest, nearest};

use line::Refusal;

// How many clocks of the port's a bit has for each unit of the divider.
const CLOCKS_PER_UNIT: u64 = 16;

const MOST: u64 = 4096;

// The divider whose bit length is nearest to that of the baud rate; refused where it is none that a port has.
pub fn nearest_divider(hertz: u32, baud: u32) -> Result<u16, Refusal>
    ensures answer { result ≡ nearest hertz baud }
    ensures law { MatchResult result (λ d. Nearest hertz baud d) (λ e. e ≡ OutOfRange) }
{
    let unit = CLOCKS_PER_UNIT * u64::from(baud);
    if unit == 0 {
        return Err(Refusal::OutOfRange);
    }
    let divider = (u64::from(hertz) + unit / 2) / unit;
    if !(1..=MOST).contains(&divider) {
        return Err(Refusal::OutOfRange);
    }
    u16::try_from(divider).map_err(|_| Refusal::OutOfRange)
}
