// A number of tenths, printed with one digit behind the point.
use std::fmt;

#[derive(Clone, Copy)]
pub(crate) struct Tenths(pub(crate) u64);

impl fmt::Display for Tenths {
    fn fmt<W: fmt::Write>(&self, f: &mut fmt::Formatter<W>) -> fmt::Result {
        // the point and the digit behind it stand within the width
        let width = f.width().unwrap_or(0).saturating_sub(2);
        write!(f, "{:>width$}.{}", self.0 / 10, self.0 % 10)
    }
}
