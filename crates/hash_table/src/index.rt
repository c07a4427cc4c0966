// The element of a table's memory.
ghost use Rattle.std.specs.Prelude.{◌≡◌};
ghost use Rattle.hash_table.specs.Cells.{held};

// What a cell is used for. A table that needs no marks has all its cells occupied.
#[derive(Clone, Copy, PartialEq, Eq, Debug)]
pub enum Mark {
    Empty,
    Occupied,
    Removed,
}

// A slot with the hash of its key, and the table's mark.
#[derive(Clone, Copy)]
pub struct HashedIndex {
    pub hash: u64,
    pub slot: u32,
    pub mark: Mark,
}

impl HashedIndex {
    // What a memory may be filled with before a table is made on it.
    pub const EMPTY: HashedIndex = HashedIndex {
        hash: 0,
        slot: 0,
        mark: Mark::Empty,
    };

    // Whether the cell holds a pair.
    pub fn is_held(self) -> bool
        ensures { result ≡ held self }
    {
        self.mark == Mark::Occupied
    }
}
