// Records in slots, with the two tables that find them kept in step.
#![tactic(auto)]

ghost use Rattle.std.specs.Prelude.{◌≡◌, true, length, Some};
ghost use Rattle.indexed_items.specs.Items.{least_of, hashes_of, Stands};
ghost use Rattle.item.specs.Kinds.{kind_of};
ghost use Rattle.item_set.specs.Compacting.{compacts, compacting};
ghost use Rattle.item_set.specs.Slots.{at, held, tally};
ghost use Rattle.item_set.specs.States.{fresh, standing, exchanged, growing};
ghost use Rattle.model.specs.Model.{find, has1, has2, shares, WellFormed};

use hash_table::HashTable;
use hashing::WordHash;
use item::BiHashItem;
use item::side::{First, Second};
use item_set::remap::IndexRemap;
use item_set::set::ItemSet;
use map_tables::parts::{MapParts, Parts};
use map_tables::{BiHashMapTables, MapHashTable};
use memory::Memory;
use model::Found;
use std::marker::Model;

mod insertion;
mod overwrite;
mod removal;

#[derive(Drop)]
pub struct IndexedItems<T: BiHashItem, P: MapParts<T>> {
    items: ItemSet<T, P::Memory>,
    tables: BiHashMapTables<P::First, P::Second, P::Hasher>,
}

// Seen as the state of the reference model, and the state of the hash. A key finds at most one slot, and each table holds one
// pair for each standing record and no other.
impl<T: BiHashItem, P: MapParts<T>> Model for IndexedItems<T, P> {
    ghost use Rattle.indexed_items.specs.Contents.{Contents};

    ghost Value = { Contents T P.Hasher };

    ghost use Rattle.indexed_items.specs.Items.{Sound};

    ghost view = { λ s. record { records = s.items; hasher = s.tables.state } };

    ghost invariant = { λ s. Sound T.BiHashItem T.K1.Key T.K2.Key P.First.HashTable P.Second.HashTable P.Hasher.WordHash s.items s.tables };
}

impl<T: BiHashItem, P: MapParts<T>> IndexedItems<T, P> {
    // No records, on any parts: they are emptied.
    pub fn new(wanted: usize, parts: P) -> IndexedItems<T, P>
        ensures { result.records ≡ fresh (least_of P.Memory.Memory P.First.HashTable P.Second.HashTable wanted (P.MapParts.parts parts)) }
    {
        let Parts {
            memory,
            first,
            second,
            state,
        } = parts.take_apart();
        let k1_to_item = MapHashTable::new(first);
        let k2_to_item = MapHashTable::new(second);
        let limit = wanted.min(k1_to_item.capacity().min(k2_to_item.capacity()));
        let items = ItemSet::new(memory, limit);
        IndexedItems {
            items,
            tables: BiHashMapTables {
                k1_to_item,
                k2_to_item,
                state,
            },
        }
    }

    // How many records stand.
    pub fn len(&self) -> usize
        ensures { result ≡ standing self.now.records }
    {
        self.items.len()
    }

    // How many records may stand.
    pub fn capacity(&self) -> usize
        ensures { result ≡ self.now.records.capacity }
    {
        self.items.capacity()
    }

    // How many slots there are, vacant ones too.
    pub fn slots(&self) -> u32
        ensures { result ≡ length self.now.records.slots }
    {
        self.items.slots()
    }

    // The record in a slot.
    pub fn get(&self, slot: u32) -> Option<T>
        ensures { result ≡ held (at self.now.records.slots slot) }
    {
        self.items.get(slot)
    }

    // The record under a first key, and its slot. Callers also learn here that a key finds at most one slot.
    pub fn find1(&self, key: &T::K1) -> Option<Found<T>>
        ensures well { WellFormed (kind_of T.BiHashItem T.K1.Key T.K2.Key) self.now.records }
        ensures answer { result ≡ find (has1 (kind_of T.BiHashItem T.K1.Key T.K2.Key) key.now) 0 self.now.records.slots }
    {
        self.tables
            .k1_to_item
            .find_index::<First<T>, P::Memory, P::Hasher>(&self.tables.state, key, &self.items)
    }

    // The record under a second key, and its slot.
    pub fn find2(&self, key: &T::K2) -> Option<Found<T>>
        ensures { result ≡ find (has2 (kind_of T.BiHashItem T.K1.Key T.K2.Key) key.now) 0 self.now.records.slots }
    {
        self.tables
            .k2_to_item
            .find_index::<Second<T>, P::Memory, P::Hasher>(&self.tables.state, key, &self.items)
    }

    // The hashes of a record's two keys.
    fn make_hashes(&self, item: &T) -> [u64; 2]
        ensures { result ≡ hashes_of T.BiHashItem T.K1.Key T.K2.Key P.Hasher.WordHash self.now.hasher item.now }
    {
        self.tables.make_hashes(item)
    }

    // Puts in a record that shares no key, under the hashes of its keys. None, and nothing done, where as many stand as may.
    fn insert_with_hashes(&mut self, value: T, hashes: [u64; 2]) -> Option<u32>
        requires apart { tally (shares (kind_of T.BiHashItem T.K1.Key T.K2.Key) value) self.old.records.slots ≡ 0 }
        requires hashes { hashes ≡ hashes_of T.BiHashItem T.K1.Key T.K2.Key P.Hasher.WordHash self.old.hasher value }
        ensures { (result, self.new.records) ≡ growing self.old.records value }
    {
        let [hash1, hash2] = hashes;
        let slot = self.items.insert(value)?;
        self.tables.k1_to_item.insert_prehashed(hash1, slot).ok()?;
        self.tables.k2_to_item.insert_prehashed(hash2, slot).ok()?;
        Some(slot)
    }

    // Puts a record in the place of one with equal keys. The tables stay, since equal keys have equal hashes.
    fn exchange(&mut self, found: &Found<T>, value: T) -> Option<T>
        requires stands { Stands self.old.records found.now }
        requires first { T.K1.Key.same (T.BiHashItem.first value) (T.BiHashItem.first found.now.item) ≡ true }
        requires second { T.K2.Key.same (T.BiHashItem.second value) (T.BiHashItem.second found.now.item) ≡ true }
        ensures answer { result ≡ Some found.now.item }
        ensures state { self.new.records ≡ exchanged self.old.records found.now.slot value }
    {
        self.items.replace(found.slot, value)
    }

    // Moves the records forward so that no slot is vacant, and both tables along. The scratch has where each slot went. None,
    // and nothing done, where a slot is vacant and the scratch is shorter than the slots.
    pub fn compact(&mut self, scratch: &mut [u32]) -> Option<IndexRemap>
        ensures { compacts result self.new.records scratch.new ≡ compacting self.old.records scratch.old }
    {
        let remap = self.items.compact(scratch)?;
        if let IndexRemap::Permuted = remap {
            let _ = self.tables.k1_to_item.remap_indexes(scratch);
            let _ = self.tables.k2_to_item.remap_indexes(scratch);
        }
        Some(remap)
    }
}
