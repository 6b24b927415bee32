// How far the marked cells of a sheet reach: a mark for each cell, spread by the lines to whatever they could change.
#![tactic(auto)]

mod faults;
mod kinds;
mod least;
mod marked;
mod origins;
mod spread;

pub use faults::MarkFault;
pub use kinds::Mark;
pub use least::{check_tables, least_marking};
pub use marked::Marked;
pub use origins::Origins;
