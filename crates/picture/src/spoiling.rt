// Damage to a picture.
ghost use Rattle.std.specs.Prelude.{◌≡◌, ℕ, ◌<◌, length, if◌then◌else◌, nat_le, nat_lt, slice_index};

// Holds the line at space from one clock to another, this one excluded.
pub fn hold_space(picture: &mut [u8], from: usize, to: usize)
    ensures { (k : ℕ) → k < length picture.old → slice_index picture.new k ≡ (if nat_le from k then (if nat_lt k to then 0 else slice_index picture.old k) else slice_index picture.old k) }
{
    let end = to.min(picture.len());
    let begin = from.min(end);
    picture[begin..end].fill(0);
}
