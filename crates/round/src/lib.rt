// A round's record, and the six calls.
#![tactic(auto)]

mod calls;
mod records;
mod secrets;
mod slices;
mod walking;

pub use calls::{advance, look, put, score, start, withdraw};
pub use records::{Record, Round};
pub use secrets::Secrets;
