// The words behind a command: options, each with its value behind it, and others.
ghost use Rattle.std.specs.Prelude.{◌≡◌, length, Some, None, MatchResult, IfOk};
ghost use Rattle.std.specs.Iterator.{at_most};
ghost use Rattle.std.specs.Slice.Iter.{iter_rest};
ghost use Rattle.words.specs.Options.{known, fault_of, told, first_fault, option_value, other_word, texts, option_now, GivesPiece};

use std::error::Error;
use std::{fmt, slice};

// What a command takes: the options that it knows, and so many other words.
#[derive(Clone, Copy)]
pub struct Takes<'a> {
    pub options: &'a [&'a str],
    pub others: usize,
}

impl<'a> Takes<'a> {
    fn knows(&self, word: &str) -> bool
        ensures { result ≡ known self.now.options.now word.now }
    {
        self.options.contains(&word)
    }
}

// What is wrong with a word.
#[derive(Clone, Copy, PartialEq, Eq, Debug)]
pub enum Wrong<'a> {
    // it is the last word, and an option, so its value is missing
    NoValue(&'a str),
    // it looks like an option, but the command knows no such
    Unknown(&'a str),
    TooMany(&'a str),
}

impl<'a> fmt::Display for Wrong<'a> {
    ghost output = { λ wrong. Some (told wrong) };

    fn fmt<W: fmt::Write>(&self, f: &mut fmt::Formatter<W>) -> fmt::Result {
        match self {
            Wrong::NoValue(_) => f.write_str("the last option has no value"),
            Wrong::Unknown(word) => write!(f, "unknown option '{word}'"),
            Wrong::TooMany(word) => write!(f, "one word too many: '{word}'"),
        }
    }
}

impl<'a> Error for Wrong<'a> {}

// A piece of the words: an option with its value, if one stands behind it, or another word.
#[derive(Clone, Copy)]
enum Piece<'a> {
    Known(&'a str, Option<&'a str>),
    Other(&'a str),
}

// The pieces still to be read.
#[derive(Drop)]
struct Pieces<'a> {
    takes: Takes<'a>,
    rest: slice::Iter<'a, String>,
}

impl<'a> Pieces<'a> {
    fn new(takes: Takes<'a>, words: &'a [String]) -> Pieces<'a>
        ensures takes { result.takes ≡ takes.entry }
        ensures words { iter_rest result.rest ≡ words.now }
    {
        Pieces {
            takes,
            rest: words.iter(),
        }
    }
}

impl<'a> Iterator for Pieces<'a> {
    type Item = Piece<'a>;

    ghost next_gives = { GivesPiece };

    ghost remaining = { λ s. at_most (length (iter_rest s.rest)) };

    fn next(&mut self) -> Option<Piece<'a>> {
        let word = self.rest.next()?.as_str();
        Some(if self.takes.knows(word) {
            Piece::Known(word, self.rest.next().map(|value| value.as_str()))
        } else {
            Piece::Other(word)
        })
    }
}

// The words behind a command, and what it takes.
#[derive(Clone, Copy)]
pub struct Words<'a> {
    pub takes: Takes<'a>,
    pub words: &'a [String],
}

impl<'a> Words<'a> {
    // The words, or what is wrong with the first that has a fault.
    #[tactic(auto, unfolding(crate::specs::Options::first_fault))]
    pub fn new(takes: Takes<'a>, words: &'a [String]) -> Result<Words<'a>, Wrong<'a>>
        ensures first { MatchResult result (λ _. first_fault takes.entry.options.now takes.entry.others None (texts words.now) ≡ None) (λ e. first_fault takes.entry.options.now takes.entry.others None (texts words.now) ≡ Some (fault_of e)) }
        ensures kept { IfOk result (λ w. (w.takes ≡ takes.entry) × (w.words.now ≡ words.now)) }
    {
        let mut left = takes.others;
        for piece in Pieces::new(takes, words) {
            match piece {
                Piece::Known(_, Some(_)) => {}
                Piece::Known(word, None) => return Err(Wrong::NoValue(word)),
                Piece::Other(word) if word.starts_with("--") => return Err(Wrong::Unknown(word)),
                Piece::Other(word) if left == 0 => return Err(Wrong::TooMany(word)),
                // counted down here, since an earlier fault ends the loop
                Piece::Other(_) => left -= 1,
            }
        }
        Ok(Words { takes, words })
    }

    // The value of an option, if it was given. Of several given alike the last counts. A loop: tried as `filter_map(..).last()`, with the same left as
    // in `other`.
    #[tactic(auto, unfolding(crate::specs::Options::option_value))]
    pub fn option(&self, name: &str) -> Option<&'a str>
        ensures { option_now result ≡ option_value self.now.takes.options.now name.now None None (texts self.now.words.now) }
    {
        let mut found = None;
        for piece in Pieces::new(self.takes, self.words) {
            if let Piece::Known(word, Some(value)) = piece
                && word == name
            {
                found = Some(value);
            }
        }
        found
    }

    // The word with this number, from 0, among those that are neither options nor their values.
    // Counted by hand: tried as `filter_map(..).nth(at)`, where `returns` was left to prove: what the adapters give is said by runs of the
    // iterator below them.
    #[tactic(auto, unfolding(crate::specs::Options::other_word))]
    pub fn other(&self, at: usize) -> Option<&'a str>
        ensures { option_now result ≡ other_word self.now.takes.options.now at None (texts self.now.words.now) }
    {
        let mut left = at;
        for piece in Pieces::new(self.takes, self.words) {
            if let Piece::Other(word) = piece {
                if left == 0 {
                    return Some(word);
                }
                left -= 1;
            }
        }
        None
    }
}
