// Typed rounds: the phase of a round as a type, beside its record. A put on a round in play, and a start whose stub is
// forgotten, are turned down before anything runs.
#![tactic(auto)]

mod in_play;
mod laying;
mod stub;

pub use in_play::InPlay;
pub use laying::{Laying, Started};
pub use stub::Stub;
