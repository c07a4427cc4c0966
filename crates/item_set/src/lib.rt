// A set of records in numbered slots, with the chain of vacant slots inside it.
#![tactic(auto)]

pub mod remap;
pub mod set;
pub mod slot;
