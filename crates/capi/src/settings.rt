// Ends that are given as plain numbers.
ghost use Rattle.std.specs.Prelude.{◌≡◌};
ghost use Rattle.ends.specs.Timed.{answered};
ghost use Rattle.capi.specs.Settings.{end_times, bare_states, ends_at};

use super::numbers::EndNumbers;
use ends::{BareReceiver, BareSender, Kind, Timing};
use line::{Format, Refusal};
use usart::{Settings, Usart};

// Declines for the first number that is out of range.
impl TryFrom<EndNumbers> for Timing {
    type Error = Refusal;

    ghost try_from_gives = { λ numbers result. answered result ≡ end_times numbers };

    fn try_from(numbers: EndNumbers) -> Result<Timing, Refusal> {
        let format = Format::from_numbers(
            numbers.data_bits,
            numbers.address_bits,
            numbers.parity,
            numbers.stop_bits,
        )?;
        let settings = Settings::new(numbers.divider, numbers.modulator)?;
        Usart::timing(format, settings)
    }
}

// A bare sender and a bare receiver with these numbers. The two come from C as two pointers; a struct made of them would be opened here at once.
pub(crate) fn bare_ends(
    sender: &EndNumbers,
    receiver: &EndNumbers,
) -> Result<(BareSender, BareReceiver), Refusal>
    ensures { bare_states result ≡ ends_at sender.now receiver.now }
{
    let sends = BareSender::new(Timing::try_from(*sender)?);
    let receives = BareReceiver::new(Timing::try_from(*receiver)?);
    Ok((sends, receives))
}
