// A memory for index pairs inside the value: no allocation and no borrow.
#![tactic(auto)]

ghost use Rattle.std.specs.Prelude.{◌≡◌, []};

use hash_table::index::HashedIndex;
use memory::{Memory, StorageRefusal, cells};
use std::marker::Model;

// The first len of 64 cells.
#[derive(Drop)]
pub struct PairBlock {
    pairs: [HashedIndex; 64],
    len: usize,
}

impl Model for PairBlock {
    ghost use Rattle.std.specs.Prelude.{◌≡◌, ◌≤◌, List, length, take};
    ghost use Rattle.hash_table.specs.declared.index.HashedIndex.{HashedIndex};

    ghost Value = { List HashedIndex };

    ghost view = { λ m. take m.len m.pairs };

    ghost invariant = { λ m. (length m.pairs ≡ 64) × (m.len ≤ 64) };
}

impl PairBlock {
    // Nothing is held yet.
    pub fn new() -> PairBlock
        ensures { result ≡ [] }
    {
        PairBlock {
            pairs: [HashedIndex::EMPTY; 64],
            len: 0,
        }
    }
}

impl Memory<HashedIndex> for PairBlock {
    ghost items = { λ m. m };

    ghost room = { λ m. 64 };

    fn len(&self) -> usize {
        self.len
    }

    fn capacity(&self) -> usize {
        self.pairs.len()
    }

    fn read(&self, place: usize) -> Result<HashedIndex, StorageRefusal> {
        cells::read(&self.pairs[..self.len], place)
    }

    fn write(&mut self, place: usize, x: HashedIndex) -> Result<(), StorageRefusal> {
        cells::write(&mut self.pairs[..self.len], place, x)
    }

    fn push(&mut self, x: HashedIndex) -> Result<(), StorageRefusal> {
        cells::write(&mut self.pairs, self.len, x).map_err(|_| StorageRefusal::AtCapacity)?;
        self.len += 1;
        Ok(())
    }

    fn truncate(&mut self, n: usize) {
        self.len = self.len.min(n);
    }
}
