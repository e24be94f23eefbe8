// The levels by number, written apart from the library's conversions.
use line::Level;

// Mark for an odd number.
pub(crate) fn level_of(number: u32) -> Level {
    if number % 2 == 0 {
        Level::Space
    } else {
        Level::Mark
    }
}

// The byte that stands for a level in a picture.
pub(crate) fn byte_of(level: Level) -> u8 {
    match level {
        Level::Space => 0,
        Level::Mark => 1,
    }
}
