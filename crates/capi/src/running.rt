// Runs of a link for programs in other languages.
ghost use Rattle.std.specs.Prelude.{◌≡◌, ◌≤◌, ◌++◌, map, length, drop, IfOk};
ghost use Rattle.ends.specs.BareSender.{meant as sending};
ghost use Rattle.ends.specs.BareReceiver.{meant as receiving};
ghost use Rattle.queue.specs.Queues.{queued_to, queued_from};
ghost use Rattle.link.specs.Link.{after_act};
ghost use Rattle.link.specs.Acts.{link_of, answer};
ghost use Rattle.link.specs.Delivery.{Delivers};
ghost use Rattle.capi.specs.Settings.{answer_number, Filled};
ghost use Rattle.capi.specs.Translating.{act_of, act_check, acts_check, told_answer};
ghost use Rattle.capi.specs.Running.{told_answers, joined, joined_queued, made, run_result, answers_at};

use super::numbers::{ActNumbers, AnswerNumbers, EndNumbers};
use super::settings::bare_ends;
use super::telling::answer_number;
use super::translating::check_all;
use ends::{BareReceiver, BareSender, Receiver, Sender};
use line::Refusal;
use link::Link;
use queue::{ReceiveQueue, SendQueue};

// Joins two ends and does the acts one after the other; writes down what each answers.
#[unsafe(no_mangle)]
#[tactic(auto, using(crate::proofs::Acts::delivering))]
pub extern "C" fn hotskrebi_run(
    sender: &EndNumbers,
    receiver: &EndNumbers,
    acts: &[ActNumbers],
    answers: &mut [AnswerNumbers],
) -> u8
    ensures answer { result ≡ answer_number (run_result (joined sender.now receiver.now) acts.now (length answers.old)) }
    ensures answers { Filled (run_result (joined sender.now receiver.now) acts.now (length answers.old)) (answers_at (joined sender.now receiver.now) acts.now) answers.new answers.old }
    ensures delivers { IfOk (joined sender.now receiver.now) (λ m. Delivers m (map act_of acts.now)) }
{
    answer_number(run(bare_link(sender, receiver), acts, answers))
}

fn bare_link(
    sender: &EndNumbers,
    receiver: &EndNumbers,
) -> Result<Link<BareSender, BareReceiver>, Refusal>
    ensures { made sending receiving result ≡ joined sender.now receiver.now }
{
    let (sends, receives) = bare_ends(sender, receiver)?;
    Ok(Link::join(sends, receives))
}

// The same with a queue in front of the sender and one behind the receiver.
#[unsafe(no_mangle)]
#[tactic(auto, using(crate::proofs::Acts::delivering))]
pub extern "C" fn hotskrebi_run_queued(
    sender: &EndNumbers,
    receiver: &EndNumbers,
    acts: &[ActNumbers],
    answers: &mut [AnswerNumbers],
) -> u8
    ensures answer { result ≡ answer_number (run_result (joined_queued sender.now receiver.now) acts.now (length answers.old)) }
    ensures answers { Filled (run_result (joined_queued sender.now receiver.now) acts.now (length answers.old)) (answers_at (joined_queued sender.now receiver.now) acts.now) answers.new answers.old }
    ensures delivers { IfOk (joined_queued sender.now receiver.now) (λ m. Delivers m (map act_of acts.now)) }
{
    answer_number(run(queued_link(sender, receiver), acts, answers))
}

fn queued_link(
    sender: &EndNumbers,
    receiver: &EndNumbers,
) -> Result<Link<SendQueue<BareSender>, ReceiveQueue<BareReceiver>>, Refusal>
    ensures { made (λ q. queued_to (sending q.below) q.held) (λ q. queued_from (receiving q.below) q.held) result ≡ joined_queued sender.now receiver.now }
{
    let (sends, receives) = bare_ends(sender, receiver)?;
    Ok(Link::join(SendQueue::new(sends), ReceiveQueue::new(receives)))
}

// All acts are looked at first, so that none is done where one is declined.
// The link comes as it was made or declined: with `and_then` in the callers, what becomes of the lent answers (`returns-clause-answers`) was left to prove.
fn run<S: Sender + Drop, R: Receiver + Drop>(
    link: Result<Link<S, R>, Refusal>,
    acts: &[ActNumbers],
    answers: &mut [AnswerNumbers],
) -> Result<usize, Refusal>
    ensures answer { result ≡ run_result (made S.Sender.meaning R.Receiver.meaning link) acts.now (length answers.old) }
    ensures answers { Filled result (answers_at (made S.Sender.meaning R.Receiver.meaning link) acts.now) answers.new answers.old }
{
    let mut link = link?;
    check_all(acts)?;
    if answers.len() < acts.len() {
        return Err(Refusal::TooShort);
    }
    do_all(&mut link, acts, answers);
    Ok(acts.len())
}

fn do_all<S: Sender, R: Receiver>(
    link: &mut Link<S, R>,
    acts: &[ActNumbers],
    answers: &mut [AnswerNumbers],
)
    requires { length acts.now ≤ length answers.old }
    ensures { answers.new ≡ told_answers (link_of S.Sender.meaning R.Receiver.meaning link.old) acts.now ++ drop (length acts.now) answers.old }
{
    // by index: of what is written through `answers.iter_mut().zip(acts)` the proof learns the length alone
    for (i, act) in acts.iter().enumerate() {
        answers[i] = do_one(link, *act);
    }
}

fn do_one<S: Sender, R: Receiver>(link: &mut Link<S, R>, act: ActNumbers) -> AnswerNumbers
    ensures answer { result ≡ told_answer (answer (link_of S.Sender.meaning R.Receiver.meaning link.old) (act_of act)) }
    ensures state { link_of S.Sender.meaning R.Receiver.meaning link.new ≡ after_act (link_of S.Sender.meaning R.Receiver.meaning link.old) (act_of act) }
{
    AnswerNumbers::from(link.act(act.act()))
}
