// What can be done to a link, and what comes of it where it is not refused.
use line::Level;

#[derive(Clone, Copy, PartialEq, Eq, Debug)]
pub enum Act {
    // load a character
    Load(u16),
    // a send clock
    Send,
    // a receive clock
    Receive,
    // a receive clock that gives the receiver this level and not the line's
    Noise(Level),
    Read,
}

#[derive(Clone, Copy, PartialEq, Eq, Debug)]
pub enum Answer {
    Done,
    // the level that a send clock put on the line
    Line(Level),
    // a character and its flags
    Entry(u16, u8),
}
