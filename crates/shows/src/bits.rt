// The names of the bits that are set in a byte.
use std::fmt;

// Printed, it is those names, with a text between each two.
#[derive(Clone, Copy)]
pub(crate) struct SetBits<'a> {
    pub(crate) byte: u8,
    // each bit with its name
    pub(crate) names: &'a [(u8, &'a str)],
    pub(crate) between: &'a str,
}

impl<'a> fmt::Display for SetBits<'a> {
    fn fmt<W: fmt::Write>(&self, f: &mut fmt::Formatter<W>) -> fmt::Result {
        // no `join`: it would make a text on the heap
        let set = self.names.iter().filter(|(bit, _)| self.byte & bit != 0);
        for (i, (_, name)) in set.enumerate() {
            if i > 0 {
                f.write_str(self.between)?;
            }
            f.write_str(name)?;
        }
        Ok(())
    }
}
