// A table as plainly as can be: a list of pairs. Its answers are those that the contract of a table states.
ghost use Rattle.std.specs.Prelude.{◌≡◌, ◌<◌, ◌≤◌, [], map, length, count_by, position, MatchResult, IfOk, OnErr};
ghost use Rattle.std.specs.List.{list_any};
ghost use Rattle.hash_table.specs.Pairs.{is_pair, adding, removing, new_slot, homeless, moved, remapping};
ghost use Rattle.memory.specs.Refusals.{code};
ghost use Rattle.tables_beside.specs.Listing.{listing, taking};

use base::SENTINEL;
use memory::StorageRefusal;
use std::alloc::{AllocError, Global};
use std::marker::Model;

// A pair is a hash and a slot.
#[derive(Drop)]
pub struct List {
    pairs: Vec<(u64, u32)>,
}

// A list is its pairs.
impl Model for List {
    ghost use Rattle.std.specs.Prelude.{ℕ, vec_items, List as Pairs};

    ghost Value = { Pairs (ℕ × ℕ) };

    ghost view = { λ list. vec_items list.pairs };
}

impl List {
    pub fn new(heap: Global) -> List
        ensures { result ≡ [] }
    {
        List {
            pairs: Vec::new(heap),
        }
    }

    pub fn len(&self) -> usize
        ensures { result ≡ length self.now }
    {
        self.pairs.len()
    }

    pub fn clear(&mut self)
        ensures { self.new ≡ [] }
    {
        self.pairs.clear();
    }

    // How often a pair stands.
    pub fn count(&self, hash: u64, slot: u32) -> usize
        ensures { result ≡ count_by (is_pair hash slot) self.now }
    {
        self.pairs
            .as_slice()
            .iter()
            .filter(|pair| **pair == (hash, slot))
            .count()
    }

    // Refused where as many pairs stand as the capacity. Memory runs out only where fewer stand, and then nothing is done.
    pub fn add(
        &mut self,
        hash: u64,
        slot: u32,
        capacity: usize,
    ) -> Result<Result<(), StorageRefusal>, AllocError>
        ensures step { MatchResult result (λ answer. (code answer, self.new) ≡ listing capacity self.old (hash, slot)) (λ _. self.new ≡ self.old) }
        ensures as_tables { length self.old ≤ capacity → IfOk result (λ answer. code answer ≡ adding capacity self.old) }
        ensures wanted { OnErr result (length self.old < capacity) }
    {
        if self.pairs.len() >= capacity {
            return Ok(Err(StorageRefusal::AtCapacity));
        }
        self.pairs.push((hash, slot))?;
        Ok(Ok(()))
    }

    // Where a pair stands first.
    fn place_of(&self, hash: u64, slot: u32) -> Option<usize>
        ensures { result ≡ position (is_pair hash slot) self.now }
    {
        self.pairs
            .as_slice()
            .iter()
            .position(|pair| *pair == (hash, slot))
    }

    // Takes the first such pair out.
    #[tactic(auto, using(crate::proofs::Listed::removing_by_place))]
    pub fn remove(&mut self, hash: u64, slot: u32) -> Result<(), StorageRefusal>
        ensures as_tables { code result ≡ removing self.old hash slot }
        ensures step { (code result, self.new) ≡ taking self.old hash slot }
    {
        let place = self.place_of(hash, slot).ok_or(StorageRefusal::NoSuchPair)?;
        let _ = self.pairs.swap_remove(place);
        Ok(())
    }

    // Whether a slot has no new place.
    fn any_homeless(&self, places: &[u32]) -> bool
        ensures { result ≡ list_any (homeless places.now) self.now }
    {
        self.pairs
            .as_slice()
            .iter()
            .any(|pair| new_place(places, pair.1) == SENTINEL)
    }

    // All slots are looked up before one is changed, so that a refusal changes nothing.
    #[tactic(auto, using(crate::proofs::Listed::remapping_by_any))]
    pub fn remap(&mut self, places: &[u32]) -> Result<(), StorageRefusal>
        ensures { (code result, self.new) ≡ remapping places.now self.old }
    {
        if self.any_homeless(places) {
            return Err(StorageRefusal::NoNewPlace);
        }
        move_all(self.pairs.as_mut_slice(), places);
        Ok(())
    }
}

// Turns each slot into its new place.
#[tactic(auto, using(std::proofs::lemmas::List::Edits::map_over_more))]
fn move_all(pairs: &mut [(u64, u32)], places: &[u32])
    ensures { pairs.new ≡ map (moved places.now) pairs.old }
{
    for pair in pairs.iter_mut() {
        pair.1 = new_place(places, pair.1);
    }
}

// Where a slot goes: a list that ends before it has no place for it. It says the same as `new_place` of hash_table on purpose:
// the list is to share no code with the tables that it is held against.
fn new_place(places: &[u32], slot: u32) -> u32
    ensures { result ≡ new_slot places.now slot }
{
    places.get(slot as usize).copied().unwrap_or(SENTINEL)
}
