// Fit for programs in other languages.
ghost use Rattle.std.specs.Prelude.{◌≡◌, MatchResult};
ghost use Rattle.capi.specs.Settings.{answer_number};
ghost use Rattle.capi.specs.Fitting.{fit_result, told_verdict, Exactly, Delivering};

use super::numbers::{EndNumbers, VerdictNumbers};
use super::settings::bare_ends;
use super::telling::tell;
use line::Refusal;
use link::{Rates, Verdict, fit};

// Whether a sender and a receiver fit, with so many send clocks to so many receive clocks.
#[unsafe(no_mangle)]
pub extern "C" fn hotskrebi_fit(
    sender: &EndNumbers,
    receiver: &EndNumbers,
    send_rate: u32,
    receive_rate: u32,
    verdict: &mut VerdictNumbers,
) -> u8
    ensures answer { result ≡ answer_number (fit_result sender.now receiver.now send_rate receive_rate) }
    ensures verdict { MatchResult (fit_result sender.now receiver.now send_rate receive_rate) (λ v. verdict.new ≡ told_verdict v) (λ _. verdict.new ≡ verdict.old) }
    ensures exactly { Exactly sender.now receiver.now send_rate receive_rate (fit_result sender.now receiver.now send_rate receive_rate) }
    ensures delivers { Delivering sender.now receiver.now send_rate receive_rate (fit_result sender.now receiver.now send_rate receive_rate) }
{
    let rates = Rates {
        send: send_rate,
        receive: receive_rate,
    };
    let answer = fit_at(sender, receiver, rates).map(VerdictNumbers::from);
    tell(answer, verdict)
}

fn fit_at(sender: &EndNumbers, receiver: &EndNumbers, rates: Rates) -> Result<Verdict, Refusal>
    ensures answer { result ≡ fit_result sender.now receiver.now rates.send rates.receive }
    ensures exactly { Exactly sender.now receiver.now rates.send rates.receive result }
    ensures delivers { Delivering sender.now receiver.now rates.send rates.receive result }
{
    let (sends, receives) = &bare_ends(sender, receiver)?;
    fit(sends, receives, rates)
}

impl From<Verdict> for VerdictNumbers {
    ghost from_gives = { λ verdict numbers. numbers ≡ told_verdict verdict };

    fn from(verdict: Verdict) -> VerdictNumbers {
        match verdict {
            Verdict::Passes => VerdictNumbers { verdict: 0, bit: 0 },
            Verdict::Early(bit) => VerdictNumbers { verdict: 1, bit },
            Verdict::Late(bit) => VerdictNumbers { verdict: 2, bit },
        }
    }
}
