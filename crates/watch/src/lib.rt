// Watchers: what is told of the places that a run comes to.
#![tactic(auto)]

mod allowance;
mod roll;
mod tally;
#[cfg(test)]
mod tests;
mod watchers;

pub use allowance::Allowance;
pub use roll::Roll;
pub use tally::Tally;
pub use watchers::Watcher;
