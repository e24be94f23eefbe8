// Acts and answers of a link to and from plain numbers.
ghost use Rattle.std.specs.Prelude.{◌≡◌};
ghost use Rattle.capi.specs.Translating.{act_of, act_told, told_answer, acts_check};

use super::numbers::{ActNumbers, AnswerNumbers};
use line::{Level, Refusal};
use link::{Act, Answer};

// the numbers by which C knows the kinds of acts
const LOAD: u8 = 0;

const SEND: u8 = 1;

const RECEIVE: u8 = 2;

const NOISE: u8 = 3;

const READ: u8 = 4;

// Declines an act of no kind, and noise that is no level.
impl TryFrom<ActNumbers> for Act {
    type Error = Refusal;

    ghost try_from_gives = { λ numbers result. result ≡ act_told numbers };

    fn try_from(numbers: ActNumbers) -> Result<Act, Refusal> {
        match numbers.kind {
            NOISE if numbers.value > 1 => Err(Refusal::NotALevel),
            LOAD..=READ => Ok(numbers.act()),
            _ => Err(Refusal::OutOfRange),
        }
    }
}

impl ActNumbers {
    // What the numbers mean where they are not declined. A run looks at all acts before it does the first, so it asks none again.
    pub(crate) fn act(self) -> Act
        ensures { result ≡ act_of self }
    {
        match self.kind {
            LOAD => Act::Load(self.value),
            SEND => Act::Send,
            RECEIVE => Act::Receive,
            NOISE => Act::Noise(Level::from_digit(self.value)),
            _ => Act::Read,
        }
    }
}

// Declines for the first act that is declined.
pub(crate) fn check_all(acts: &[ActNumbers]) -> Result<(), Refusal>
    ensures { result ≡ acts_check acts.now }
{
    for act in acts {
        Act::try_from(*act)?;
    }
    Ok(())
}

impl From<Result<Answer, Refusal>> for AnswerNumbers {
    ghost from_gives = { λ answer numbers. numbers ≡ told_answer answer };

    fn from(answer: Result<Answer, Refusal>) -> AnswerNumbers {
        let (kind, flags, value) = match answer {
            Ok(Answer::Done) => (0, 0, 0),
            Ok(Answer::Line(level)) => (1, 0, u16::from(u8::from(level))),
            Ok(Answer::Entry(character, flags)) => (2, flags, character),
            Err(refusal) => (3, 0, u16::from(u8::from(refusal))),
        };
        AnswerNumbers { kind, flags, value }
    }
}
