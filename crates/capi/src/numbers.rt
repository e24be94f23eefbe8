// What crosses to programs in other languages: structs of plain numbers, any of which may be out of range. C has no enum with
// fields, so kinds and verdicts are numbers here, and turn into enums where they come in.

// A USART's settings, and its format.
#[repr(C)]
#[derive(Clone, Copy, PartialEq, Eq, Debug)]
pub struct EndNumbers {
    pub divider: u16,
    pub modulator: u8,
    pub data_bits: u8,
    pub address_bits: u8,
    // 0 for none, 1 for odd, 2 for even
    pub parity: u8,
    pub stop_bits: u8,
}

// A character, and the flags with which it arrived.
#[repr(C)]
#[derive(Clone, Copy, PartialEq, Eq, Debug)]
pub struct EntryNumbers {
    pub character: u16,
    pub flags: u8,
}

// Whether rates fit.
#[repr(C)]
#[derive(Clone, Copy, PartialEq, Eq, Debug)]
pub struct VerdictNumbers {
    // 0 where they pass, 1 where a bit is early, 2 where it is late
    pub verdict: u8,
    // the bit, 0 where they pass
    pub bit: usize,
}

// What can be done to a link.
#[repr(C)]
#[derive(Clone, Copy, PartialEq, Eq, Debug)]
pub struct ActNumbers {
    // 0 load, 1 send clock, 2 receive clock, 3 noise clock, 4 read
    pub kind: u8,
    // the character of a load, the level of a noise clock
    pub value: u16,
}

// What comes of it.
#[repr(C)]
#[derive(Clone, Copy, PartialEq, Eq, Debug)]
pub struct AnswerNumbers {
    // 0 done, 1 the level on the line, 2 a character and its flags, 3 refused
    pub kind: u8,
    pub flags: u8,
    // the level, the character or the refusal's number
    pub value: u16,
}
