// What a bare receiver is doing.
use super::samples::Samples;

#[derive(Clone, Copy)]
pub enum Doing {
    Idle,
    // in a frame, at this clock of it, with its samples so far
    Framing { clock: u32, samples: Samples },
    // after a framing fault, with this many spaces since
    Counting { spaces: u32 },
}

// What a clock of a frame comes to.
#[derive(Clone, Copy)]
pub enum Progress {
    GoesOn,
    // the start bit was decided as mark
    FalseStart,
    // the first stop bit was decided: the frame's character and flags
    Over((u16, u8)),
}
