// Steps of the calls of a map that read records in slots by both keys, or go through all slots.
#![tactic(auto)]

pub mod equality;
pub mod lookup;
pub mod removal;
