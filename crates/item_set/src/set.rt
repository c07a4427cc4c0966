// The set of slots.
ghost use Rattle.std.specs.Prelude.{◌≡◌, ◌<◌, ◌≤◌, min, length, ◌≢◌, IfSome, MatchOption};
ghost use Rattle.std.specs.Borrow.{sem, RestsIfNone};
ghost use Rattle.item_set.specs.Chains.{Linked};
ghost use Rattle.item_set.specs.Compacting.{compacts, compacting};
ghost use Rattle.item_set.specs.contracts.set.ItemSet.{the_row};
ghost use Rattle.item_set.specs.Slots.{at, held, next};
ghost use Rattle.item_set.specs.States.{fresh, standing, granted, growing, removing, replacing, advancing};

use crate::remap::IndexRemap;
use crate::slot::ItemSlot;
use base::SENTINEL;
use memory::Memory;
use std::marker::{Model, PhantomData};

// No set is larger, so that a slot's number always fits.
pub const MOST: usize = 4096;

// Records in the slots of a memory. Vacant slots are chained from the head; the slot freed last is taken first.
#[derive(Drop)]
pub struct ItemSet<T: Copy, M: Memory<ItemSlot<T>>> {
    kind: PhantomData<T>,
    items: M,
    free_head: u32,
    len: usize,
    capacity: usize,
}

impl<T: Copy, M: Memory<ItemSlot<T>>> Model for ItemSet<T, M> {
    ghost use Rattle.item_set.specs.States.{State};

    ghost Value = { State T };

    ghost use Rattle.item_set.specs.Sets.{meaning, Ready};

    ghost view = { meaning M.Memory };

    ghost invariant = { Ready M.Memory };
}

impl<T: Copy, M: Memory<ItemSlot<T>>> ItemSet<T, M> {
    // A set with no slots. It holds as many records as are wanted, as the memory has room for, and as a set may hold.
    pub fn new(mut items: M, wanted: usize) -> ItemSet<T, M>
        ensures state { result ≡ fresh (min 4096 (min wanted (M.Memory.room items))) }
    {
        items.truncate(0);
        let capacity = MOST.min(wanted.min(items.capacity()));
        ItemSet {
            kind: PhantomData,
            items,
            free_head: SENTINEL,
            len: 0,
            capacity,
        }
    }

    // How many records stand.
    pub fn len(&self) -> usize
        ensures { result ≡ standing self.now }
    {
        self.len
    }

    // How many records may stand.
    pub fn capacity(&self) -> usize
        ensures { result ≡ self.now.capacity }
    {
        self.capacity
    }

    // How many slots there are, vacant ones too. Callers also learn here that the chain of vacant slots is whole.
    pub fn slots(&self) -> u32
        ensures count { result ≡ length self.now.slots }
        ensures linked { Linked self.now }
    {
        self.items.len() as u32
    }

    // The record in a slot.
    pub fn get(&self, slot: u32) -> Option<T>
        ensures { result ≡ held (at self.now.slots slot) }
    {
        match slot_at(&self.items, slot) {
            ItemSlot::Occupied(record) => Some(record),
            ItemSlot::Vacant(_) => None,
        }
    }

    // The slot after a vacant one on the chain.
    fn link(&self, slot: u32) -> u32
        ensures { result ≡ next (at self.now.slots slot) }
    {
        match slot_at(&self.items, slot) {
            ItemSlot::Occupied(_) => SENTINEL,
            ItemSlot::Vacant(after) => after,
        }
    }

    // Puts a record into the slot freed last, or into a new one. None, and nothing done, where the set is full.
    pub fn insert(&mut self, value: T) -> Option<u32>
        ensures step { (result, self.new) ≡ growing self.old value }
    {
        self.assert_can_grow()?.insert(value)
    }

    // The right to put in one record more, where there is room. The handle holds the set itself, so the set ends as the
    // handle leaves it; with no handle it stays.
    fn assert_can_grow(&mut self) -> Option<GrowHandle<'_, T, M>>
        ensures* rests { sem 𝓛 (RestsIfNone (the_row T.row M.row M.Memory) self.entry (λ h. h.items.ghost_name) result (λ n. n ≡ self.old)) }
        ensures same_reference { IfSome result (λ h. h.items.ghost_name ≡ self.entry.ghost_name) }
        ensures room { MatchOption result (self.old.capacity ≤ standing self.old) (λ h. (h.items.now ≡ self.old) × (standing self.old < self.old.capacity)) }
    {
        if self.len < self.capacity {
            Some(GrowHandle { items: self })
        } else {
            None
        }
    }

    // The slot freed last.
    fn head(&self) -> u32
        ensures { result ≡ self.now.head }
    {
        self.free_head
    }

    // A new slot at the end.
    fn append(&mut self, value: T) -> Option<u32>
        requires head { self.old.head ≡ 4294967295 }
        requires fits { standing self.old < self.old.capacity }
        ensures step { (result, self.new) ≡ granted self.old value }
    {
        let slot = self.items.len();
        self.items.push(ItemSlot::Occupied(value)).ok()?;
        self.len += 1;
        Some(slot as u32)
    }

    // The vacant slot at the head of the chain.
    fn fill(&mut self, slot: u32, value: T) -> Option<u32>
        requires head { slot ≡ self.old.head }
        requires vacant { slot ≢ 4294967295 }
        requires fits { standing self.old < self.old.capacity }
        ensures step { (result, self.new) ≡ granted self.old value }
    {
        let after = self.link(slot);
        self.items
            .write(slot as usize, ItemSlot::Occupied(value))
            .ok()?;
        self.free_head = after;
        self.len += 1;
        Some(slot)
    }

    // Takes the record out of a slot, which becomes the head of the chain. None, and nothing done, where none stands there.
    pub fn remove(&mut self, slot: u32) -> Option<T>
        ensures step { (result, self.new) ≡ removing self.old slot }
    {
        let record = self.get(slot)?;
        self.items
            .write(slot as usize, ItemSlot::Vacant(self.free_head))
            .ok()?;
        self.free_head = slot;
        self.len -= 1;
        Some(record)
    }

    // Exchanges the record in a slot. None, and nothing done, where none stands there.
    pub fn replace(&mut self, slot: u32, replacement: T) -> Option<T>
        ensures step { (result, self.new) ≡ replacing self.old slot replacement }
    {
        let record = self.get(slot)?;
        self.items
            .write(slot as usize, ItemSlot::Occupied(replacement))
            .ok()?;
        Some(record)
    }

    // Moves the records forward in their order, so that no slot is vacant, and notes in the scratch where each slot went. None,
    // and nothing done, where a slot is vacant and the scratch is shorter than the slots.
    pub fn compact(&mut self, scratch: &mut [u32]) -> Option<IndexRemap>
        ensures step { compacts result self.new scratch.new ≡ compacting self.old scratch.old }
    {
        let slots = self.slots();
        if self.len == slots as usize {
            return Some(IndexRemap::Identity);
        }
        if scratch.len() < slots as usize {
            return None;
        }
        let mut free: u32 = 0;
        for slot in 0..slots {
            if advance(&mut self.items, slot, free) {
                scratch[slot as usize] = free;
                free += 1;
            } else {
                scratch[slot as usize] = SENTINEL;
            }
        }
        self.items.truncate(free as usize);
        self.free_head = SENTINEL;
        Some(IndexRemap::Permuted)
    }
}

// A slot; past the slots a vacant one.
fn slot_at<T: Copy, M: Memory<ItemSlot<T>>>(items: &M, slot: u32) -> ItemSlot<T>
    ensures { result ≡ at (M.Memory.items items.now) slot }
{
    items
        .read(slot as usize)
        .unwrap_or(ItemSlot::Vacant(SENTINEL))
}

// Puts the record of one slot into another, and says whether there is one. It is no method, since the chain is broken
// while a set is compacted.
fn advance<T: Copy, M: Memory<ItemSlot<T>>>(items: &mut M, from: u32, to: u32) -> bool
    ensures room { M.Memory.room items.new ≡ M.Memory.room items.old }
    ensures step { (result, M.Memory.items items.new) ≡ advancing (M.Memory.items items.old) to (held (at (M.Memory.items items.old) from)) }
{
    let ItemSlot::Occupied(record) = slot_at(items, from) else {
        return false;
    };
    let _ = items.write(to as usize, ItemSlot::Occupied(record));
    true
}

// The right to put one record more into a set that has room for it. Only `ItemSet::assert_can_grow` makes one, once it
// has seen that there is room, and only `insert` uses it up; the set cannot change in between.
#[derive(Drop)]
struct GrowHandle<'a, T: Copy, M: Memory<ItemSlot<T>>> {
    items: &'a mut ItemSet<T, M>,
}

impl<'a, T: Copy, M: Memory<ItemSlot<T>>> GrowHandle<'a, T, M> {
    fn insert(self, value: T) -> Option<u32>
        requires fits { standing self.items.now < self.items.now.capacity }
        ensures step { (result, self.exit.0.now) ≡ granted self.entry.items.now value }
    {
        let slot = self.items.head();
        if slot == SENTINEL {
            self.items.append(value)
        } else {
            self.items.fill(slot, value)
        }
    }
}
