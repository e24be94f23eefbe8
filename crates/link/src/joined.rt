// A sender and a receiver with a line between them, and what can be done to it.
ghost use Rattle.std.specs.Prelude.{◌≡◌, ◌<◌, ◌≤◌, ◌++◌, length, drop, MatchResult};
ghost use Rattle.line.specs.declared.level.Level.TheVariants.{Mark};
ghost use Rattle.line.specs.declared.refusal.Refusal.TheVariants.{TooShort};
ghost use Rattle.ends.specs.Sender.{sent};
ghost use Rattle.ends.specs.Receiver.{oldest};
ghost use Rattle.link.specs.declared.act.Act.TheVariants.{Load, Send, Receive, Noise, Read};
ghost use Rattle.link.specs.Link.{linked, loading, after_act, after};
ghost use Rattle.link.specs.History.{read_answers};
ghost use Rattle.link.specs.Delivery.{Delivers};

use super::act::{Act, Answer};
use ends::{Receiver, Sender};
use line::{Level, Refusal};

// No model, which would show of the ends only what they mean: a run that is refused promises that all else stays too.
#[derive(Drop)]
pub struct Link<S: Sender, R: Receiver> {
    sender: S,
    receiver: R,
    // the level that the last send clock put on the line
    line: Level,
}

impl<S: Sender, R: Receiver> Link<S, R> {
    ghost use Rattle.link.specs.Acts.{link_of, answer, all_answers, told};

    // The line begins at mark.
    pub fn join(sender: S, receiver: R) -> Link<S, R>
        ensures { link_of S.Sender.meaning R.Receiver.meaning result ≡ linked (S.Sender.meaning sender) (R.Receiver.meaning receiver) Mark }
    {
        Link {
            sender,
            receiver,
            line: Level::Mark,
        }
    }

    // A character for the sender; refused first where the formats do not agree.
    pub fn load(&mut self, character: u16) -> Result<(), Refusal>
        ensures answer { result ≡ loading (link_of S.Sender.meaning R.Receiver.meaning self.old) character }
        ensures state { link_of S.Sender.meaning R.Receiver.meaning self.new ≡ after_act (link_of S.Sender.meaning R.Receiver.meaning self.old) (Load character) }
    {
        if !self.sender.format().agrees(self.receiver.format()) {
            return Err(Refusal::FormatsDiffer);
        }
        self.sender.load(character)
    }

    // A send clock puts the sender's level on the line.
    pub fn send(&mut self) -> Level
        ensures level { result ≡ sent (S.Sender.meaning self.old.sender) }
        ensures state { link_of S.Sender.meaning R.Receiver.meaning self.new ≡ after_act (link_of S.Sender.meaning R.Receiver.meaning self.old) Send }
    {
        self.line = self.sender.clock();
        self.line
    }

    // A receive clock gives the receiver the level on the line.
    pub fn receive(&mut self)
        ensures { link_of S.Sender.meaning R.Receiver.meaning self.new ≡ after_act (link_of S.Sender.meaning R.Receiver.meaning self.old) Receive }
    {
        self.receiver.clock(self.line);
    }

    // A noise clock gives the receiver another level, and leaves the line.
    pub fn noise(&mut self, level: Level)
        ensures { link_of S.Sender.meaning R.Receiver.meaning self.new ≡ after_act (link_of S.Sender.meaning R.Receiver.meaning self.old) (Noise level) }
    {
        self.receiver.clock(level);
    }

    pub fn read(&mut self) -> Result<(u16, u8), Refusal>
        ensures answer { result ≡ oldest (R.Receiver.meaning self.old.receiver).unread }
        ensures state { link_of S.Sender.meaning R.Receiver.meaning self.new ≡ after_act (link_of S.Sender.meaning R.Receiver.meaning self.old) Read }
    {
        self.receiver.read()
    }

    pub fn act(&mut self, act: Act) -> Result<Answer, Refusal>
        ensures answer { result ≡ answer (link_of S.Sender.meaning R.Receiver.meaning self.old) act }
        ensures state { link_of S.Sender.meaning R.Receiver.meaning self.new ≡ after_act (link_of S.Sender.meaning R.Receiver.meaning self.old) act }
    {
        match act {
            Act::Load(character) => self.load(character).map(|()| Answer::Done),
            Act::Send => Ok(Answer::Line(self.send())),
            Act::Receive => {
                self.receive();
                Ok(Answer::Done)
            }
            Act::Noise(level) => {
                self.noise(level);
                Ok(Answer::Done)
            }
            Act::Read => self
                .read()
                .map(|(character, flags)| Answer::Entry(character, flags)),
        }
    }

    // Does the acts one after the other and writes down what each answers; answers how many there were.
    #[tactic(auto, using(crate::proofs::Acts::reads_told))]
    pub fn run(
        &mut self,
        acts: &[Act],
        answers: &mut [Result<Answer, Refusal>],
    ) -> Result<usize, Refusal>
        ensures answer { MatchResult result (λ n. (n ≡ length acts.now) × (length acts.now ≤ length answers.old)) (λ e. (e ≡ TooShort) × (length answers.old < length acts.now)) }
        ensures answers { MatchResult result (λ n. answers.new ≡ all_answers (link_of S.Sender.meaning R.Receiver.meaning self.old) acts.now ++ drop n answers.old) (λ _. answers.new ≡ answers.old) }
        ensures state { MatchResult result (λ _. link_of S.Sender.meaning R.Receiver.meaning self.new ≡ after (link_of S.Sender.meaning R.Receiver.meaning self.old) acts.now) (λ _. self.new ≡ self.old) }
        ensures reads { told (all_answers (link_of S.Sender.meaning R.Receiver.meaning self.old) acts.now) ≡ read_answers (link_of S.Sender.meaning R.Receiver.meaning self.old) acts.now }
        ensures delivers { Delivers (link_of S.Sender.meaning R.Receiver.meaning self.old) acts.now }
    {
        if answers.len() < acts.len() {
            return Err(Refusal::TooShort);
        }
        // by index: of answers written through a zip with `iter_mut` the check would know only how many there are
        for (i, act) in acts.iter().enumerate() {
            answers[i] = self.act(*act);
        }
        Ok(acts.len())
    }
}
