// Why a call declines. A call that declines changes nothing and answers one of these.
ghost use Rattle.std.specs.Prelude.{◌≡◌};
ghost use Rattle.line.specs.Refusals.{number_of};

#[derive(Clone, Copy, PartialEq, Eq, Debug)]
pub enum Refusal {
    // a format, a setting or a rate is out of its range
    OutOfRange = 1,
    // a character has more bits than the format
    TooWide = 2,
    // as many characters wait as the sender has room for
    Full = 3,
    // no received character is unread
    NothingUnread = 4,
    // sender and receiver have formats that do not agree
    FormatsDiffer = 5,
    // a buffer is too short, or more than 4,096 characters are to be drawn
    TooShort = 6,
    // a byte that stands for a level is neither 0 nor 1
    NotALevel = 7,
    // there is no register at the address
    NoSuchRegister = 8,
    // the register cannot be written now
    Closed = 9,
    // the chip is released from reset with SYNC set
    SyncSet = 10,
}

// The number by which programs in other languages know it.
impl From<Refusal> for u8 {
    ghost from_gives = { λ refusal number. number ≡ number_of refusal };

    fn from(refusal: Refusal) -> u8 {
        refusal as u8
    }
}
