// A map of records under two keys: a record is found by either, and no two records share one.
#![tactic(auto)]

ghost use Rattle.std.specs.Prelude.{◌≡◌, length};
ghost use Rattle.indexed_items.specs.Items.{least_of};
ghost use Rattle.indexed_items.specs.Overwriting.{Standing};
ghost use Rattle.item.specs.Kinds.{kind_of};
ghost use Rattle.item_set.specs.Slots.{at, held};
ghost use Rattle.item_set.specs.States.{fresh};
ghost use Rattle.model.specs.Answers.{goes, counted};
ghost use Rattle.model.specs.Model.{equal, freed_at, seen, step, insert as inserts, overwrite, replace as replaces, look1, look2, look12, remove1 as removes1, remove2 as removes2, remove12, retain as retains, count};
ghost use Rattle.model.specs.Shrinking.{shrinking, shrunk, with_scratch};
ghost use Rattle.model.specs.Told.{inserted, overwritten, looked};

use indexed_items::IndexedItems;
use item::BiHashItem;
use item::comparable::Comparable;
use item::predicate::Predicate;
use map_steps::lookup::find_unique;
use map_steps::{equality, removal};
use map_tables::parts::MapParts;
use model::{Found, MapRefusal, Overwritten, ScratchShort};
use std::marker::Model;

#[derive(Drop)]
pub struct BiHashMap<T: BiHashItem, P: MapParts<T>> {
    items: IndexedItems<T, P>,
}

// Seen as the state of the reference model, whatever parts the map is made of.
impl<T: BiHashItem, P: MapParts<T>> Model for BiHashMap<T, P> {
    ghost use Rattle.item_set.specs.States.{State};

    ghost Value = { State T };

    ghost view = { λ map. map.items.records };
}

// What a look-up or a removal answers of a search.
fn answer<T: Copy>(found: Option<Found<T>>) -> Result<Found<T>, MapRefusal<T>>
    ensures { looked result ≡ seen found }
{
    found.ok_or(MapRefusal::NotThere)
}

impl<T: BiHashItem, P: MapParts<T>> BiHashMap<T, P> {
    // A map with no records, on any parts: they are emptied. It holds as many records as are wanted, or as the parts
    // have room for.
    pub fn new(wanted: usize, parts: P) -> BiHashMap<T, P>
        ensures { result ≡ fresh (least_of P.Memory.Memory P.First.HashTable P.Second.HashTable wanted (P.MapParts.parts parts)) }
    {
        BiHashMap {
            items: IndexedItems::new(wanted, parts),
        }
    }

    // How many records stand.
    pub fn len(&self) -> usize
        ensures { goes self.now (counted result) ≡ step (kind_of T.BiHashItem T.K1.Key T.K2.Key) self.now (count) }
    {
        self.items.len()
    }

    // How many records may stand.
    pub fn capacity(&self) -> usize
        ensures { result ≡ self.now.capacity }
    {
        self.items.capacity()
    }

    // How many slots there are, vacant ones too.
    pub fn slots(&self) -> u32
        ensures { result ≡ length self.now.slots }
    {
        self.items.slots()
    }

    // The record in a slot.
    pub fn get_slot(&self, slot: u32) -> Option<T>
        ensures { result ≡ held (at self.now.slots slot) }
    {
        self.items.get(slot)
    }

    // The record under a first key, and its slot.
    pub fn get1(&self, key: &T::K1) -> Result<Found<T>, MapRefusal<T>>
        ensures { goes self.now (looked result) ≡ step (kind_of T.BiHashItem T.K1.Key T.K2.Key) self.now (look1 key.now) }
    {
        answer(self.items.find1(key))
    }

    // The record under a second key, and its slot.
    pub fn get2(&self, key: &T::K2) -> Result<Found<T>, MapRefusal<T>>
        ensures { goes self.now (looked result) ≡ step (kind_of T.BiHashItem T.K1.Key T.K2.Key) self.now (look2 key.now) }
    {
        answer(self.items.find2(key))
    }

    // The record that has both keys, and its slot.
    pub fn get_unique(&self, key1: &T::K1, key2: &T::K2) -> Result<Found<T>, MapRefusal<T>>
        ensures { goes self.now (looked result) ≡ step (kind_of T.BiHashItem T.K1.Key T.K2.Key) self.now (look12 key1.now key2.now) }
    {
        answer(find_unique(&self.items, key1, key2))
    }

    // Takes a record in, unless it shares a key with a standing one or as many stand as may.
    pub fn insert(&mut self, value: T) -> Result<u32, MapRefusal<T>>
        ensures { goes self.new (inserted result) ≡ step (kind_of T.BiHashItem T.K1.Key T.K2.Key) self.old (inserts value) }
    {
        self.items.insert(value)
    }

    // Takes a record in, and hands back the standing ones that share a key with it. Only where none does can the map be
    // full.
    pub fn insert_overwrite(&mut self, value: T) -> Result<Overwritten<T>, MapRefusal<T>>
        ensures { goes self.new (overwritten result) ≡ step (kind_of T.BiHashItem T.K1.Key T.K2.Key) self.old (overwrite value) }
    {
        self.items.insert_overwrite(value)
    }

    // Puts a record in the place of those that share a key with it; refused where none does. A record with both keys is
    // exchanged in its slot.
    pub fn replace(&mut self, value: T) -> Result<Overwritten<T>, MapRefusal<T>>
        ensures { goes self.new (overwritten result) ≡ step (kind_of T.BiHashItem T.K1.Key T.K2.Key) self.old (replaces value) }
    {
        self.items.replace(value)
    }

    // Takes out the record that a search found, if it found one.
    fn remove_found(&mut self, found: Option<Found<T>>) -> Result<Found<T>, MapRefusal<T>>
        requires { Standing self.old found }
        ensures answer { looked result ≡ seen found }
        ensures state { self.new ≡ freed_at self.old found }
    {
        let found = answer(found)?;
        let _ = self.items.remove(found.slot);
        Ok(found)
    }

    // Takes out the record under a first key.
    pub fn remove1(&mut self, key: &T::K1) -> Result<Found<T>, MapRefusal<T>>
        ensures { goes self.new (looked result) ≡ step (kind_of T.BiHashItem T.K1.Key T.K2.Key) self.old (removes1 key.now) }
    {
        let by_first = self.items.find1(key);
        self.remove_found(by_first)
    }

    // Takes out the record under a second key.
    pub fn remove2(&mut self, key: &T::K2) -> Result<Found<T>, MapRefusal<T>>
        ensures { goes self.new (looked result) ≡ step (kind_of T.BiHashItem T.K1.Key T.K2.Key) self.old (removes2 key.now) }
    {
        let by_second = self.items.find2(key);
        self.remove_found(by_second)
    }

    // Takes out the record that has both keys.
    pub fn remove_unique(&mut self, key1: &T::K1, key2: &T::K2) -> Result<Found<T>, MapRefusal<T>>
        ensures { goes self.new (looked result) ≡ step (kind_of T.BiHashItem T.K1.Key T.K2.Key) self.old (remove12 key1.now key2.now) }
    {
        let by_both = find_unique(&self.items, key1, key2);
        self.remove_found(by_both)
    }

    // Takes out the records that a predicate refuses, by ascending slot, and says how many stand then.
    pub fn retain<Q: Predicate<R = T>>(&mut self, predicate: &Q) -> usize
        ensures { goes self.new (counted result) ≡ step (kind_of T.BiHashItem T.K1.Key T.K2.Key) self.old (retains (Q.Predicate.keeps predicate.now)) }
    {
        removal::retain(&mut self.items, predicate)
    }

    // Moves the records forward in their order so that no slot is vacant, and answers how many slots are left. The scratch
    // then has the new slot of each slot, or the sentinel for one that was vacant; it is not touched where none was. Refused,
    // with nothing done, where a slot is vacant and the scratch is shorter than the slots.
    pub fn shrink_to_fit(&mut self, scratch: &mut [u32]) -> Result<usize, ScratchShort>
        ensures { with_scratch scratch.new (goes self.new (shrunk result)) ≡ shrinking scratch.old self.old }
    {
        self.items.compact(scratch).ok_or(ScratchShort)?;
        Ok(self.len())
    }
}

impl<T: Comparable, P: MapParts<T>> BiHashMap<T, P> {
    // Whether as many records stand in another map, and each of this one meets a record like it there, in one slot under
    // both keys. The parts of the two maps may differ.
    pub fn eq<O: MapParts<T>>(&self, other: &BiHashMap<T, O>) -> bool
        ensures { result ≡ equal (kind_of T.BiHashItem T.K1.Key T.K2.Key) T.Comparable.alike self.now other.now }
    {
        equality::equal(&self.items, &other.items)
    }
}
