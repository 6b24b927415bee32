// Kinds of values: what a cell can hold, and what the operations make of two values.
#![tactic(auto)]

mod candidates;
mod digits;
mod kinds;
mod number;
mod sets;
mod smallest;

pub use candidates::Candidates;
pub use kinds::Value;
pub use number::Number;
pub use sets::{comparisons_stand, sets_stand};
