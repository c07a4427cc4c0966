// The table that looks through all its pairs.
ghost use Rattle.std.specs.Prelude.{◌≡◌, [], MatchOption};
ghost use Rattle.base.specs.Counting.{times};
ghost use Rattle.hash_table.specs.Cells.{pairs_of, Stands};
ghost use Rattle.hash_table.specs.Pairs.{is_pair, candidate as candidate_of};

use crate::HashTable;
use crate::cells::{at, put, remap_cells};
use crate::index::{HashedIndex, Mark};
use memory::{Memory, StorageRefusal};
use std::marker::Model;

// Its capacity is its memory's.
#[derive(Drop)]
pub struct LinearTable<M: Memory<HashedIndex>> {
    memory: M,
}

impl<M: Memory<HashedIndex>> Model for LinearTable<M> {
    ghost use Rattle.hash_table.specs.Tables.{Table};
    ghost use Rattle.hash_table.specs.Cells.{pairs_of, AllHeld};

    ghost Value = { Table };

    ghost view = { λ t. record { pairs = pairs_of (M.Memory.items t.memory); room = M.Memory.room t.memory } };

    ghost invariant = { λ t. AllHeld (M.Memory.items t.memory) };
}

impl<M: Memory<HashedIndex>> LinearTable<M> {
    // A table with no pair: what the memory held goes.
    pub fn new(mut memory: M) -> LinearTable<M>
        ensures { result ≡ record { pairs = []; room = M.Memory.room memory } }
    {
        memory.truncate(0);
        LinearTable { memory }
    }
}

// A place of the pair.
fn place_of<M: Memory<HashedIndex>>(memory: &M, hash: u64, slot: u32) -> Option<usize>
    ensures { MatchOption result (times (is_pair hash slot) (pairs_of (M.Memory.items memory.now)) ≡ 0) (Stands (M.Memory.items memory.now) hash slot) }
{
    (0..memory.len()).find(|&i| {
        let cell = at(memory, i);
        cell.hash == hash && cell.slot == slot
    })
}

// The slot of pair k, from 0, among those with the hash.
fn candidate_in<M: Memory<HashedIndex>>(memory: &M, hash: u64, k: usize) -> Option<u32>
    ensures { result ≡ candidate_of (pairs_of (M.Memory.items memory.now)) hash k }
{
    // A plain loop: with `filter` and `nth` it is asked at each place where the memory's cells lie, which takes half as long again.
    let mut seen = 0;
    for i in 0..memory.len() {
        let cell = at(memory, i);
        if cell.hash == hash {
            if seen == k {
                return Some(cell.slot);
            }
            seen += 1;
        }
    }
    None
}

impl<M: Memory<HashedIndex>> HashTable for LinearTable<M> {
    ghost pairs = { λ t. t.pairs };

    ghost room = { λ t. t.room };

    fn len(&self) -> usize {
        self.memory.len()
    }

    fn capacity(&self) -> usize {
        self.memory.capacity()
    }

    fn candidate(&self, hash: u64, k: usize) -> Option<u32> {
        candidate_in(&self.memory, hash, k)
    }

    fn add(&mut self, hash: u64, slot: u32) -> Result<(), StorageRefusal> {
        self.memory.push(HashedIndex {
            hash,
            slot,
            mark: Mark::Occupied,
        })
    }

    // The last pair goes where the one taken out was.
    fn remove(&mut self, hash: u64, slot: u32) -> Result<(), StorageRefusal> {
        let place = place_of(&self.memory, hash, slot).ok_or(StorageRefusal::NoSuchPair)?;
        let last = self.memory.len() - 1;
        let cell = at(&self.memory, last);
        put(&mut self.memory, place, cell);
        self.memory.truncate(last);
        Ok(())
    }

    fn clear(&mut self) {
        self.memory.truncate(0);
    }

    fn remap(&mut self, places: &[u32]) -> Result<(), StorageRefusal> {
        remap_cells(&mut self.memory, places)
    }
}
