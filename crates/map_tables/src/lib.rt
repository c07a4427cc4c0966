// The parts of a map, and its two tables, by which a record is found under either key.
#![tactic(auto)]

ghost use Rattle.std.specs.Prelude.{◌≡◌, ℕ, [], ◌∷◌, MatchResult};
ghost use Rattle.base.specs.Counting.{Same};
ghost use Rattle.hash_table.specs.Pairs.{adding, removing, remapping};
ghost use Rattle.map_tables.specs.Due.{key_hash, Searchable};
ghost use Rattle.memory.specs.Refusals.{code};
ghost use Rattle.model.specs.Model.{find, has};

use hash_table::HashTable;
use hashing::WordHash;
use item::side::Side;
use item::{BiHashItem, Key};
use item_set::set::ItemSet;
use item_set::slot::ItemSlot;
use memory::{Memory, StorageRefusal};
use model::Found;

pub mod parts;

// A table of the slots of a map under one key.
#[derive(Drop)]
pub struct MapHashTable<A: HashTable> {
    items: A,
}

// The hash of a key's words.
fn compute_hash<H: WordHash, K: Key>(hasher: &H, key: &K) -> u64
    ensures { result ≡ H.WordHash.hashed hasher.now (K.Key.words key.now) }
{
    hasher.hash(&key.words())
}

impl<A: HashTable> MapHashTable<A> {
    // A table with no pair: what was given is emptied.
    pub fn new(mut items: A) -> MapHashTable<A>
        ensures pairs { A.HashTable.pairs result.items ≡ [] }
        ensures room { A.HashTable.room result.items ≡ A.HashTable.room items }
    {
        items.clear();
        MapHashTable { items }
    }

    pub fn capacity(&self) -> usize
        ensures { result ≡ A.HashTable.room self.now.items }
    {
        self.items.capacity()
    }

    // The record that has the key, looked for among the candidates of its hash.
    pub fn find_index<S: Side, M: Memory<ItemSlot<S::R>>, H: WordHash>(
        &self,
        hasher: &H,
        key: &S::K,
        items: &ItemSet<S::R, M>,
    ) -> Option<Found<S::R>>
        ensures { Searchable S.Side.part S.K.Key.same A.HashTable (key_hash H.WordHash hasher.now S.K.Key S.Side.part) items.now self.now.items → result ≡ find (has S.Side.part S.K.Key.same key.now) 0 items.now.slots }
    {
        let hash = compute_hash(hasher, key);
        for k in 0..self.items.len() {
            let slot = self.items.candidate(hash, k)?;
            if let Some(item) = items.get(slot) {
                if key.equals(&S::part(&item)) {
                    return Some(Found { slot, item });
                }
            }
        }
        None
    }

    // Puts a slot in under the hash of its key.
    pub fn insert_prehashed(&mut self, hash: u64, slot: u32) -> Result<(), StorageRefusal>
        ensures room { A.HashTable.room self.new.items ≡ A.HashTable.room self.old.items }
        ensures code { code result ≡ adding (A.HashTable.room self.old.items) (A.HashTable.pairs self.old.items) }
        ensures pairs { MatchResult result (λ _. Same (A.HashTable.pairs self.new.items) ((hash, slot) ∷ A.HashTable.pairs self.old.items)) (λ _. A.HashTable.pairs self.new.items ≡ A.HashTable.pairs self.old.items) }
    {
        self.items.add(hash, slot)
    }

    // Takes a slot out that stands under the hash.
    pub fn remove_prehashed(&mut self, hash: u64, slot: u32) -> Result<(), StorageRefusal>
        ensures room { A.HashTable.room self.new.items ≡ A.HashTable.room self.old.items }
        ensures code { code result ≡ removing (A.HashTable.pairs self.old.items) hash slot }
        ensures pairs { MatchResult result (λ _. Same (A.HashTable.pairs self.old.items) ((hash, slot) ∷ A.HashTable.pairs self.new.items)) (λ _. A.HashTable.pairs self.new.items ≡ A.HashTable.pairs self.old.items) }
    {
        self.items.remove(hash, slot)
    }

    // Turns each slot s into place s of the list: where the records went when the slots were compacted.
    pub fn remap_indexes(&mut self, places: &[u32]) -> Result<(), StorageRefusal>
        ensures room { A.HashTable.room self.new.items ≡ A.HashTable.room self.old.items }
        ensures step { (code result, A.HashTable.pairs self.new.items) ≡ remapping places.now (A.HashTable.pairs self.old.items) }
    {
        self.items.remap(places)
    }
}

// The hash and the two tables.
#[derive(Drop)]
pub struct BiHashMapTables<A: HashTable, B: HashTable, H> {
    pub k1_to_item: MapHashTable<A>,
    pub k2_to_item: MapHashTable<B>,
    pub state: H,
}

impl<A: HashTable, B: HashTable, H: WordHash> BiHashMapTables<A, B, H> {
    // The hashes of a record's two keys, which travel together.
    pub fn make_hashes<T: BiHashItem>(&self, item: &T) -> [u64; 2]
        ensures { result ≡ key_hash H.WordHash self.now.state T.K1.Key T.BiHashItem.first item.now ∷ key_hash H.WordHash self.now.state T.K2.Key T.BiHashItem.second item.now ∷ [] }
    {
        [
            compute_hash(&self.state, &item.key1()),
            compute_hash(&self.state, &item.key2()),
        ]
    }
}
