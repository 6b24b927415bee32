// Running a sheet, in both its forms.
#![tactic(auto)]

mod branching;
mod cells;
mod faults;
mod judging;
mod levels;
mod machine;
mod moves;
mod registers;
mod slots;
mod track;
mod verdicts;

pub use cells::{cell, write};
pub use faults::RunFault;
pub use judging::judge;
pub use machine::{is_over, run_steps, step};
pub use registers::{Level, Registers};
pub use slots::put;
pub use track::Track;
pub use verdicts::{Verdict, path_verdict};
