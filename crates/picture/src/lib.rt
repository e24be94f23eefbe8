// Pictures of a line: one byte for each clock, 0 for space and 1 for mark.

#![tactic(auto)]

pub mod drawing;
pub mod runs;
pub mod scanner;
pub mod scanning;
pub mod spoiling;

pub use drawing::draw;
pub use runs::{Run, Runs, run_length};
pub use scanner::Scanner;
pub use scanning::scan;
pub use spoiling::hold_space;
