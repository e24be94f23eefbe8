// Single bits of a register's byte.
ghost use Rattle.std.specs.Prelude.{◌≡◌, false, bit_or, filter, fold, slice_index_or};
ghost use Rattle.std.specs.List.{zip};
ghost use Rattle.chip.specs.Bytes.{has, bits, byte};

// From bit 7 to bit 0.
const MASKS: [u8; 8] = [0x80, 0x40, 0x20, 0x10, 0x08, 0x04, 0x02, 0x01];

// Whether the bit that the mask has is set.
pub(crate) fn has(byte: u8, mask: u8) -> bool
    ensures { result ≡ has byte mask }
{
    byte & mask != 0
}

// The bits of a byte, from bit 7 to bit 0.
pub(crate) fn bits(byte: u8) -> [bool; 8]
    ensures { result ≡ bits byte }
{
    MASKS.map(|mask| has(byte, mask))
}

// The masks of the bits that are set, put together.
fn joined(masks: &[u8], bits: &[bool]) -> u8
    ensures { result ≡ fold (λ byte (mask, set). bit_or byte mask) 0 (filter (λ (mask, set). set) (zip masks.now bits.now)) }
{
    masks
        .iter()
        .zip(bits)
        .filter(|(_, set)| **set)
        .fold(0, |byte, (mask, _)| byte | *mask)
}

// The byte that has these bits, from bit 7 to bit 0. Each register lists its own: nothing takes any register, so a trait over them would have no user.
pub(crate) fn byte(bits: [bool; 8]) -> u8
    ensures { result ≡ byte (slice_index_or bits 0 false) (slice_index_or bits 1 false) (slice_index_or bits 2 false) (slice_index_or bits 3 false) (slice_index_or bits 4 false) (slice_index_or bits 5 false) (slice_index_or bits 6 false) (slice_index_or bits 7 false) }
{
    joined(&MASKS, &bits)
}
