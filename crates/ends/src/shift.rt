// The shift register of a sender: what is left of the frame on the line.
#[derive(Clone, Copy)]
pub struct Shift {
    // the bits that are not over, as binary digits: the one on the line is the least significant
    pub(crate) digits: u16,
    // the number of the bit on the line
    pub(crate) bit: usize,
    // how many clocks are left of it
    pub(crate) clocks: u32,
}
