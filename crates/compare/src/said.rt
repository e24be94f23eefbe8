// What a call answers, as both emulators tell it.
use super::hearing::Entry;
use line::{Level, Refusal};
use std::alloc::{AllocError, Global};
use std::fmt;

#[derive(Clone, Copy, PartialEq, Debug)]
pub(crate) enum Said {
    Done,
    // the level on the line
    Line(Level),
    Entry(Entry),
    // what a register holds
    Byte(u8),
    // a chip's interrupt flags
    Flags { utxifg: bool, urxifg: bool },
}

pub(crate) type Answer = Result<Said, Refusal>;

// The numbers of the refusals, written apart from the library's.
fn number(refusal: Refusal) -> u8 {
    match refusal {
        Refusal::OutOfRange => 1,
        Refusal::TooWide => 2,
        Refusal::Full => 3,
        Refusal::NothingUnread => 4,
        Refusal::FormatsDiffer => 5,
        Refusal::TooShort => 6,
        Refusal::NotALevel => 7,
        Refusal::NoSuchRegister => 8,
        Refusal::Closed => 9,
        Refusal::SyncSet => 10,
    }
}

// What each emulator says.
#[derive(Clone, Copy, Drop)]
pub(crate) struct Both<T> {
    pub(crate) own: T,
    pub(crate) library: T,
}

impl<T> Both<Result<T, Refusal>> {
    // The same with the numbers of the refusals, which each side has from its own table.
    pub(crate) fn numbered(self) -> Both<Result<T, u8>> {
        Both {
            own: self.own.map_err(number),
            library: self.library.map_err(u8::from),
        }
    }
}

impl<T: PartialEq> Both<T> {
    pub(crate) fn agree(&self) -> bool {
        self.own == self.library
    }
}

impl<T: fmt::Debug> fmt::Display for Both<T> {
    fn fmt<W: fmt::Write>(&self, f: &mut fmt::Formatter<W>) -> fmt::Result {
        writeln!(f, "  the library        {:?}", self.library)?;
        writeln!(f, "  the other emulator {:?}", self.own)
    }
}

// Two lists.
impl<T: PartialEq + Copy> Both<Vec<T>> {
    // The first place where they differ, counted from 0, if there is one.
    pub(crate) fn difference(&self) -> Option<usize> {
        let shorter = self.own.len().min(self.library.len());
        self.own
            .iter()
            .zip(self.library.iter())
            .position(|(own, library)| own != library)
            .or((self.own.len() != self.library.len()).then_some(shorter))
    }

    // What stands in each at a place.
    pub(crate) fn at(&self, place: usize) -> Both<Option<T>> {
        Both {
            own: self.own.get(place).copied(),
            library: self.library.get(place).copied(),
        }
    }
}

// The answers to a list of calls, with the numbers of the refusals.
pub(crate) type Answers = Both<Vec<Result<Said, u8>>>;

impl Both<Vec<Answer>> {
    pub(crate) fn each_numbered(self, heap: Global) -> Result<Answers, AllocError> {
        Ok(Both {
            own: self
                .own
                .iter()
                .map(|answer| answer.map_err(number))
                .collect(heap)?,
            library: self
                .library
                .iter()
                .map(|answer| answer.map_err(u8::from))
                .collect(heap)?,
        })
    }
}
