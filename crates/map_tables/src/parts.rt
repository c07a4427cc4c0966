// What a map is made of.
ghost use Rattle.std.specs.Prelude.{◌≡◌};
ghost use Rattle.map_tables.specs.Rooms.{parts_room};

use hash_table::HashTable;
use hashing::WordHash;
use item::BiHashItem;
use item_set::slot::ItemSlot;
use memory::Memory;

// A memory for the records, a table for each of their two keys, and the state of the hash.
#[derive(Drop)]
pub struct Parts<M, A, B, H> {
    pub memory: M,
    pub first: A,
    pub second: B,
    pub state: H,
}

// How many records the parts have room for.
pub fn room<T: BiHashItem, M: Memory<ItemSlot<T>>, A: HashTable, B: HashTable, H>(
    parts: &Parts<M, A, B, H>,
) -> usize
    ensures { result ≡ parts_room M.Memory A.HashTable B.HashTable parts.now }
{
    parts
        .memory
        .capacity()
        .min(parts.first.capacity().min(parts.second.capacity()))
}

// The kinds of the four parts under one name, so that what is said of a map of any parts names one kind in place of four.
pub trait MapParts<T: BiHashItem> {
    type Memory: Memory<ItemSlot<T>>;

    type First: HashTable;

    type Second: HashTable;

    type Hasher: WordHash;

    ghost use Rattle.map_tables.specs.declared.parts.Parts.{Parts};

    ghost parts: { Self → Parts Self.Memory Self.First Self.Second Self.Hasher };

    fn take_apart(self) -> Parts<Self::Memory, Self::First, Self::Second, Self::Hasher>
        ensures { result ≡ parts self };

    // How many records the parts have room for.
    fn room(&self) -> usize
        ensures { result ≡ parts_room Self.Memory.Memory Self.First.HashTable Self.Second.HashTable (parts self.now) };
}

impl<T: BiHashItem, M: Memory<ItemSlot<T>>, A: HashTable, B: HashTable, H: WordHash> MapParts<T>
    for Parts<M, A, B, H> {
    type Memory = M;

    type First = A;

    type Second = B;

    type Hasher = H;

    ghost parts = { λ made. made };

    fn take_apart(self) -> Parts<M, A, B, H> {
        self
    }

    fn room(&self) -> usize {
        room(self)
    }
}
