// Why the one path is right: what ties the two forms of a sheet, and two runs of its one path.
#![tactic(auto)]

mod laws;

pub use laws::{
    agreement_stands, disabled_stands, ending_stands, examples_stand, lockstep_stands, order_stands,
};
