// Traces: calls of a map as values, and what a run of them leaves behind. In specs/: what a run comes to on the reference
// model, and the laws that hold of every run.
#![tactic(auto)]

use model::{Found, MapRefusal, Overwritten, ScratchShort};

// A call of a map. A shrink brings a scratch of its own.
#[derive(Drop)]
pub enum Call<T, K1, K2, P> {
    Insert(T),
    Overwrite(T),
    Replace(T),
    Get1(K1),
    Get2(K2),
    GetUnique(K1, K2),
    Remove1(K1),
    Remove2(K2),
    RemoveUnique(K1, K2),
    Retain(P),
    Shrink(Vec<u32>),
    Len,
}

// What a call answered, but for the scratch.
#[derive(Clone, Copy)]
pub enum Outcome<T> {
    Inserted(Result<u32, MapRefusal<T>>),
    Overwritten(Result<Overwritten<T>, MapRefusal<T>>),
    Found(Result<Found<T>, MapRefusal<T>>),
    Counted(usize),
    Shrunk(Result<usize, ScratchShort>),
}

// What a call left behind: its answer, the scratch that it brought as it is then, and the standing records by ascending
// slot.
#[derive(Drop)]
pub struct Event<T> {
    pub outcome: Outcome<T>,
    pub scratch: Vec<u32>,
    pub standing: Vec<T>,
}
