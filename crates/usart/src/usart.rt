// The USART as a kind of end.
ghost use Rattle.std.specs.Prelude.{◌≡◌, ℕ, ◌*◌, ◌<◌, ◌≤◌, Ok, MatchResult, length, slice_index};
ghost use Rattle.line.specs.Frames.{first_stop};
ghost use Rattle.ends.specs.Times.{Inside};
ghost use Rattle.ends.specs.Timed.{answered, sample_clocks};
ghost use Rattle.usart.specs.Usart.{lengths, distance, bit_samples, samples, usart_times, Spaced, Lasting, Centred};

use super::settings::Settings;
use ends::{Kind, Timing};
use line::{Format, Refusal};
use std::array;

// The kind of end that is the MSP430's USART.
pub struct Usart;

impl Kind for Usart {
    type Settings = Settings;

    ghost times = { λ f s. Ok (usart_times f s.divider s.modulator) };

    fn timing(format: Format, settings: Settings) -> Result<Timing, Refusal>
        ensures times { answered result ≡ Ok (usart_times format settings.divider settings.modulator) }
        ensures inside { MatchResult result (λ t. Inside t.lengths (sample_clocks t) (first_stop format)) (λ _. ⊥) }
        ensures centred { MatchResult result (λ t. Centred t.lengths (sample_clocks t) (first_stop format)) (λ _. ⊥) }
    {
        let lengths = bit_lengths(&settings);
        Ok(Timing {
            format,
            lengths,
            samples: sample_clocks(&lengths[..12]),
            break_length: 10 * u32::from(settings.divider),
        })
    }
}

// How far the outer samples of a bit of this length lie from the middle one.
fn sample_distance(length: u32) -> u32
    requires { Lasting length }
    ensures value { result ≡ distance length }
    ensures spaced { Spaced length result }
{
    ((1 << length.ilog2()) / 32).max(1)
}

// How many clocks each of the thirteen bits that a frame may have lasts.
fn bit_lengths(settings: &Settings) -> [u32; 13]
    ensures { result ≡ lengths settings.now.divider settings.now.modulator 13 }
{
    array::from_fn(|k| settings.bit_length(k))
}

// The clocks at which a bit of this length is sampled that begins at clock `start`.
fn bit_samples(start: u32, length: u32) -> [u32; 3]
    requires { (start ≤ 11 * 65536) × (Lasting length) }
    ensures { result ≡ bit_samples start length }
{
    let middle = start + length / 2;
    let distance = sample_distance(length);
    [middle - distance, middle, middle + distance]
}

// The clocks at which bits of these lengths are sampled, the first twelve of a frame, one after the other.
fn sample_clocks(lengths: &[u32]) -> [u32; 36]
    requires twelve { length lengths.now ≡ 12 }
    requires lasting { (k : ℕ) → k < 12 → Lasting (slice_index lengths.now k) }
    ensures { result ≡ samples 0 lengths.now }
{
    let mut clocks = [0; 36];
    let mut start = 0;
    // By place: of what a loop over `chunks_exact_mut` wrote, a proof knows no more than how long it is. One by one, since a processor waits
    // where numbers that were just stored are copied as one piece: that took more than half of a call of Fit.
    for (k, length) in lengths.iter().enumerate() {
        let [first, middle, last] = bit_samples(start, *length);
        clocks[3 * k] = first;
        clocks[3 * k + 1] = middle;
        clocks[3 * k + 2] = last;
        start += length;
    }
    clocks
}
