// The bench for programs in other languages: C functions over plain numbers, each with a refusal's number as its answer, 0 for none.

#![tactic(auto)]

pub mod drawing;
pub mod fitting;
pub mod numbers;
pub mod running;
pub mod scanning;
pub mod settings;
pub mod telling;
pub mod translating;

pub use drawing::hotskrebi_draw;
pub use fitting::hotskrebi_fit;
pub use numbers::{ActNumbers, AnswerNumbers, EndNumbers, EntryNumbers, VerdictNumbers};
pub use running::{hotskrebi_run, hotskrebi_run_queued};
pub use scanning::hotskrebi_scan;
