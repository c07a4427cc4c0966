// What a map is made of, and how many records it has room for, for those who know only this crate.
pub use map_tables::parts::{Parts, room};
