// When an end sends and samples each bit, counted in its own clocks.
ghost use Rattle.std.specs.Prelude.{◌≡◌, ℕ, ◌+◌, ◌*◌, ◌^◌, ◌<◌, ◌≤◌, length, slice_index};
ghost use Rattle.ends.specs.Times.{samples_per_frame};

use line::Format;

// Thirteen bits are the most that a frame has, and twelve the most through the first stop bit. A table has its
// numbers for bits that the format does not use too.
#[derive(Clone, Copy)]
pub struct Timing {
    pub format: Format,
    // how many clocks each bit lasts
    pub lengths: [u32; 13],
    // the three clocks at which each bit is sampled, counted from the frame's first clock, one bit after the other
    pub samples: [u32; 36],
    // how many spaces after a framing fault make a break
    pub break_length: u32,
    ghost thirteen: { length lengths ≡ 13 },
    ghost lasting: { (k : ℕ) → k < 13 → 0 < slice_index lengths k },
    ghost short: { (k : ℕ) → slice_index lengths k ≤ 65536 },
    ghost all_samples: { length samples ≡ 36 },
    ghost rising: { (i : ℕ) → i + 1 < 36 → slice_index samples i ≤ slice_index samples (i + 1) },
    ghost apart: { (k : ℕ) → k < 11 → slice_index samples (3 * k + 2) < slice_index samples (3 * k + 3) },
    ghost early: { (i : ℕ) → slice_index samples i < 1048576 },
    ghost breaks: { 0 < break_length },
    ghost brief: { break_length < 2 ^ 32 },
}

impl Timing {
    // How many samples are taken of a frame: three for each bit through the first stop bit.
    pub fn sample_count(&self) -> usize
        ensures { result ≡ samples_per_frame self.now.format }
    {
        3 * (1 + self.format.first_stop())
    }
}
