// A table that probes: a pair stands at the home of its hash or after it, so that only few cells are read.
#![tactic(auto)]

ghost use Rattle.std.specs.Prelude.{◌≡◌, ◌-◌, ◌≤◌, [], MatchOption};
ghost use Rattle.hash_table.specs.Pairs.{candidate as candidate_of};
ghost use Rattle.probing_table.specs.Probed.{met as met_at, probed, Laid, Full, Free, Absent, Stands};

use crate::cells::{REMOVED, fill, holds_hash, holds_pair, is_free, is_vacant, tidy};
use crate::ring::{home, spot};
use hash_table::HashTable;
use hash_table::cells::{at, put, remap_cells};
use hash_table::index::{HashedIndex, Mark};
use memory::{Memory, StorageRefusal};
use std::marker::Model;

mod cells;
mod ring;

// Its capacity is its memory's less one, or 0: one cell stays without a pair, so that a probe meets it.
#[derive(Drop)]
pub struct ProbingTable<M: Memory<HashedIndex>> {
    memory: M,
    count: usize,
}

impl<M: Memory<HashedIndex>> Model for ProbingTable<M> {
    ghost use Rattle.std.specs.Prelude.{◌-◌};
    ghost use Rattle.hash_table.specs.Tables.{Table};
    ghost use Rattle.probing_table.specs.Probed.{probed, Sound};

    ghost Value = { Table };

    ghost view = { λ t. record { pairs = probed (M.Memory.room t.memory) (M.Memory.items t.memory); room = M.Memory.room t.memory - 1 } };

    ghost invariant = { λ t. Sound (M.Memory.room t.memory) (M.Memory.items t.memory) t.count };
}

impl<M: Memory<HashedIndex>> ProbingTable<M> {
    // A table with no pair: what the memory held goes, and empty cells fill it.
    pub fn new(mut memory: M) -> ProbingTable<M>
        ensures { result ≡ record { pairs = []; room = M.Memory.room memory - 1 } }
    {
        fill(&mut memory);
        ProbingTable { memory, count: 0 }
    }
}

// The cell that step j of a probe from the start reads.
fn met<M: Memory<HashedIndex>>(memory: &M, start: usize, j: usize) -> HashedIndex
    ensures { start ≤ M.Memory.room memory.now → result ≡ met_at (M.Memory.room memory.now) (M.Memory.items memory.now) start j }
{
    at(memory, spot(start, j, memory.capacity()))
}

// The first place without a pair on the way of the hash, unless every cell has one.
fn free_place<M: Memory<HashedIndex>>(memory: &M, hash: u64) -> Option<usize>
    requires { Laid (M.Memory.room memory.now) (M.Memory.items memory.now) }
    ensures { MatchOption result (Full (M.Memory.room memory.now) (M.Memory.items memory.now)) (Free (M.Memory.room memory.now) (M.Memory.items memory.now) hash) }
{
    let n = memory.capacity();
    let start = home(hash, n);
    (0..n)
        .map(|j| spot(start, j, n))
        .find(|&place| is_free(at(memory, place)))
}

// A place of the pair.
fn place_of<M: Memory<HashedIndex>>(memory: &M, hash: u64, slot: u32) -> Option<usize>
    requires { Laid (M.Memory.room memory.now) (M.Memory.items memory.now) }
    ensures { MatchOption result (Absent (M.Memory.room memory.now) (M.Memory.items memory.now) hash slot) (Stands (M.Memory.room memory.now) (M.Memory.items memory.now) hash slot) }
{
    let n = memory.capacity();
    let start = home(hash, n);
    // Each place is worked out once, for both tests and the answer.
    (0..n)
        .map(|j| spot(start, j, n))
        .take_while(|&place| !is_vacant(at(memory, place)))
        .find(|&place| holds_pair(at(memory, place), hash, slot))
}

// The slot of pair k, from 0, among those with the hash.
fn candidate_in<M: Memory<HashedIndex>>(memory: &M, hash: u64, k: usize) -> Option<u32>
    requires { Laid (M.Memory.room memory.now) (M.Memory.items memory.now) }
    ensures { result ≡ candidate_of (probed (M.Memory.room memory.now) (M.Memory.items memory.now)) hash k }
{
    let n = memory.capacity();
    let start = home(hash, n);
    (0..n)
        .map(|j| met(memory, start, j))
        .take_while(|&cell| !is_vacant(cell))
        .filter(|&cell| holds_hash(cell, hash))
        .map(|cell| cell.slot)
        .nth(k)
}

impl<M: Memory<HashedIndex>> HashTable for ProbingTable<M> {
    ghost pairs = { λ t. t.pairs };

    ghost room = { λ t. t.room };

    fn len(&self) -> usize {
        self.count
    }

    fn capacity(&self) -> usize {
        self.memory.capacity().saturating_sub(1)
    }

    fn candidate(&self, hash: u64, k: usize) -> Option<u32> {
        candidate_in(&self.memory, hash, k)
    }

    fn add(&mut self, hash: u64, slot: u32) -> Result<(), StorageRefusal> {
        if self.count >= self.capacity() {
            return Err(StorageRefusal::AtCapacity);
        }
        let place = free_place(&self.memory, hash).ok_or(StorageRefusal::AtCapacity)?;
        put(
            &mut self.memory,
            place,
            HashedIndex {
                hash,
                slot,
                mark: Mark::Occupied,
            },
        );
        self.count += 1;
        Ok(())
    }

    fn remove(&mut self, hash: u64, slot: u32) -> Result<(), StorageRefusal> {
        let place = place_of(&self.memory, hash, slot).ok_or(StorageRefusal::NoSuchPair)?;
        put(&mut self.memory, place, REMOVED);
        tidy(&mut self.memory, place);
        self.count = self.count.saturating_sub(1);
        Ok(())
    }

    fn clear(&mut self) {
        fill(&mut self.memory);
        self.count = 0;
    }

    fn remap(&mut self, places: &[u32]) -> Result<(), StorageRefusal> {
        remap_cells(&mut self.memory, places)
    }
}
