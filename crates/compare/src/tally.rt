// How many cases were compared, and how many of them differed.
use std::alloc::{AllocError, Global};
use std::{fmt, io};

// What both emulators made of a case. It is printed where it is the first that differs.
pub(crate) trait Case: fmt::Display {
    fn is_same(&self) -> bool;
}

// A case that its number makes.
pub(crate) trait Numbered: Case + Sized {
    // None where there is nothing to compare: the library refuses the settings.
    fn run(heap: Global, seed: u16) -> Result<Option<Self>, AllocError>;
}

#[derive(Clone, Copy, Default)]
pub(crate) struct Tally {
    cases: u32,
    pub(crate) differences: u32,
}

impl Tally {
    pub(crate) fn count<C: Case>(&mut self, rt: &impl Print, case: &C) -> io::Result<()> {
        self.cases = self.cases.saturating_add(1);
        if case.is_same() {
            return Ok(());
        }
        self.differences = self.differences.saturating_add(1);
        if self.differences == 1 {
            print!(rt; "{case}")?;
        }
        Ok(())
    }
}

impl fmt::Display for Tally {
    fn fmt<W: fmt::Write>(&self, f: &mut fmt::Formatter<W>) -> fmt::Result {
        let cases = self.cases;
        let differences = self.differences;
        write!(f, "{cases:>6} cases, {differences} differences")
    }
}

// Runs so many cases in both emulators.
pub(crate) fn compare<C: Numbered + Drop>(
    rt: &(impl Print + AllocGlobal),
    cases: u16,
) -> anyhow::Result<Tally> {
    let mut tally = Tally::default();
    for seed in 0..cases {
        if let Some(case) = C::run(rt.alloc(), seed)? {
            tally.count(rt, &case)?;
        }
    }
    Ok(tally)
}
