// The samples of a frame so far: an array and a count, in fixed memory, since a receiver is `Copy` and an `ArrayVec` is not.
ghost use Rattle.std.specs.Prelude.{◌≡◌, ◌≤◌, length};

use line::Level;

#[derive(Clone, Copy)]
pub struct Samples {
    pub(crate) levels: [Level; 36],
    pub(crate) count: usize,
    ghost few: { count ≤ 36 },
    ghost places: { length levels ≡ 36 },
}
