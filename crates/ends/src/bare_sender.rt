// A sender with a shift register and room for one character.
ghost use Rattle.std.specs.Prelude.{◌^◌, ◌<◌};
ghost use Rattle.line.specs.Frames.{width, frame_bits};
ghost use Rattle.ends.specs.Shifts.{bit_of, clocks_of, character_of};

use super::shift::Shift;
use super::timing::Timing;

#[derive(Clone, Copy)]
pub struct BareSender {
    pub(crate) timing: Timing,
    pub(crate) shift: Option<Shift>,
    pub(crate) waiting: Option<u16>,
    ghost in_frame: { bit_of shift < frame_bits timing.format },
    ghost on_line: { 0 < clocks_of shift },
    ghost narrow: { character_of waiting < 2 ^ width timing.format },
}
