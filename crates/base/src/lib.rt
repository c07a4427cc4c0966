// What every layer shares: the number that is no slot's, and (in specs/) how elements are counted.
#![tactic(auto)]

// The end of a chain of slots, and the new place of a slot that has none. No slot has this number.
pub const SENTINEL: u32 = 4294967295;
