// A sheet's lines as the steps of one path. A construct whose condition is covered is not branched on: both its
// blocks, or all its passes, are stepped through, and a guard at the construct's level says which steps take effect.
#![tactic(auto)]

mod blocks;
mod constructs;
mod faults;
mod paths;
mod steps;
mod whole;

pub use faults::ConvertFault;
pub use paths::OnePath;
pub use steps::Step;
pub use whole::{check_tables, convert};
