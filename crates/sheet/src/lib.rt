// Judge sheets: their lines, the layout of their bytes, and the reader.
#![tactic(auto)]

mod block;
mod checking;
mod fault_kinds;
mod faults;
mod filling;
mod headers;
mod kinds;
mod laws;
mod lines;
mod nesting;
mod parts;
mod printing;
mod reading;
mod rules;
mod walking;

pub use block::{Block, Construct};
pub use fault_kinds::Fault;
pub use faults::{Layer, ReadFault};
pub use headers::Sheet;
pub use laws::one_program_stands;
pub use lines::Line;
pub use printing::Refused;
pub use reading::{check, check_table, read};
