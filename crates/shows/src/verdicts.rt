// What Fit says, for a person to read.
use line::Refusal;
use link::Verdict;
use std::fmt;

// A word and a number, eight columns wide.
#[derive(Clone, Copy)]
pub struct Told(pub Verdict);

impl fmt::Display for Told {
    fn fmt<W: fmt::Write>(&self, f: &mut fmt::Formatter<W>) -> fmt::Result {
        match self.0 {
            Verdict::Passes => f.write_str("passes  "),
            Verdict::Early(bit) => write!(f, "early {bit:<2}"),
            Verdict::Late(bit) => write!(f, "late {bit:<3}"),
        }
    }
}

// A few words.
#[derive(Clone, Copy)]
pub(crate) struct InWords(pub(crate) Result<Verdict, Refusal>);

impl fmt::Display for InWords {
    fn fmt<W: fmt::Write>(&self, f: &mut fmt::Formatter<W>) -> fmt::Result {
        match self.0 {
            Ok(Verdict::Passes) => f.write_str("passes"),
            Ok(Verdict::Early(bit)) => write!(f, "bit {bit} is sampled too early"),
            Ok(Verdict::Late(bit)) => write!(f, "bit {bit} is sampled too late"),
            Err(refusal) => write!(f, "refused with {}", u8::from(refusal)),
        }
    }
}
