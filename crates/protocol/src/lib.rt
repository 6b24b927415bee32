// What is said in a round: the calls, their answers and refusals.
#![tactic(auto)]

mod answers;
mod calls;
mod refusals;

pub use answers::{Advanced, Answer, Ending, Score};
pub use calls::{Call, Phase};
pub use refusals::Refusal;
