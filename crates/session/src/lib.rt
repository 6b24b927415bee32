// Sessions: a sheet is opened as a round, and lists of calls are played on it.
#![tactic(auto)]

mod faults;
mod lists;
mod opening;
mod playing;

pub use faults::{OpenFault, PlayFault};
pub use lists::{Board, answer_call, run_list};
pub use opening::{Lent, Tables, check_opening, open};
pub use playing::{play_list, play_pair};
