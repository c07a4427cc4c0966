// Kinds of records that programs keep in a map.
#![tactic(auto)]

pub mod coin;
pub mod currency;
pub mod starter;
