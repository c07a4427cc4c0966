// The answers of a two-key map, and (in specs/) the reference model that says which answer each call has.
#![tactic(auto)]

ghost use Rattle.std.specs.Prelude.{◌≡◌, ◌++◌};
ghost use Rattle.model.specs.Told.{another as other_slot, in_order as ordered, one_of, shared};

// A standing record and its slot.
#[derive(Clone, Copy)]
pub struct Found<T> {
    pub slot: u32,
    pub item: T,
}

impl<T: Copy> Found<T> {
    // The second search's answer, unless it is the slot that the first found.
    pub fn another(first: Option<Found<T>>, second: Option<Found<T>>) -> Option<Found<T>>
        ensures { result ≡ other_slot first second }
    {
        let second = second?;
        match first {
            Some(first) if first.slot == second.slot => None,
            _ => Some(second),
        }
    }
}

// The standing records that share a key with a new one: one, or one for each key.
#[derive(Clone, Copy)]
pub enum Duplicates<T> {
    One(T),
    Two(T, T),
}

impl<T: Copy> Duplicates<T> {
    // The records that two searches found, by ascending slot, and one that both found once.
    pub fn in_order(first: Option<Found<T>>, second: Option<Found<T>>) -> Option<Duplicates<T>>
        ensures { shared result ≡ ordered first second }
    {
        match (first, second) {
            (None, None) => None,
            (Some(a), None) => Some(Duplicates::One(a.item)),
            (None, Some(b)) => Some(Duplicates::One(b.item)),
            (Some(a), Some(b)) if a.slot == b.slot => Some(Duplicates::One(a.item)),
            (Some(a), Some(b)) if a.slot < b.slot => Some(Duplicates::Two(a.item, b.item)),
            (Some(a), Some(b)) => Some(Duplicates::Two(b.item, a.item)),
        }
    }

    // The records in two answers, in turn.
    pub fn in_turn(first: Option<T>, second: Option<T>) -> Option<Duplicates<T>>
        ensures { shared result ≡ one_of first ++ one_of second }
    {
        match (first, second) {
            (None, None) => None,
            (Some(a), None) => Some(Duplicates::One(a)),
            (None, Some(b)) => Some(Duplicates::One(b)),
            (Some(a), Some(b)) => Some(Duplicates::Two(a, b)),
        }
    }
}

// A new record that was not taken in, and the standing ones that it shares a key with, by ascending slot.
#[derive(Clone, Copy)]
pub struct DuplicateItem<T> {
    pub new: T,
    pub duplicates: Duplicates<T>,
}

// Where a new record went, and the standing ones that it displaced, if any: the match of its first key, then that of its
// second if another.
#[derive(Clone, Copy)]
pub struct Overwritten<T> {
    pub slot: u32,
    pub displaced: Option<Duplicates<T>>,
}

// What a caller of a map may be refused. Nothing is changed then.
#[derive(Clone, Copy)]
pub enum MapRefusal<T> {
    Duplicate(DuplicateItem<T>),
    Full,
    NotThere,
}

// What a caller that lends a scratch to a shrink may be refused: the scratch is shorter than the slots. Nothing is changed
// then.
#[derive(Clone, Copy, PartialEq, Eq, Debug)]
pub struct ScratchShort;
