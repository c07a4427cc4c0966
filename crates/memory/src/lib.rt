// Storage for plain elements, known by what it holds: a list of elements and a capacity.
#![tactic(auto)]

ghost use Rattle.std.specs.Prelude.{◌≡◌, ℕ, ◌≤◌, List, length, take};
ghost use Rattle.memory.specs.Refusals.{code, given};
ghost use Rattle.memory.specs.Stored.{reading, writing, pushing};

pub mod cells;
pub mod lent;

// What a user of a memory or a table may be refused.
#[derive(Clone, Copy, PartialEq, Eq, Debug)]
pub enum StorageRefusal {
    AtCapacity,
    NoSuchPlace,
    NoSuchPair,
    NoNewPlace,
}

// A memory for elements of one plain kind. Questions and refusals change nothing, and a capacity stays.
pub trait Memory<T: Copy> {
    ghost items: { Self → List T };

    ghost room: { Self → ℕ };

    fn len(&self) -> usize
        ensures count { result ≡ length (items self.now) }
        ensures bounded { length (items self.now) ≤ room self.now };

    fn capacity(&self) -> usize
        ensures { result ≡ room self.now };

    fn read(&self, place: usize) -> Result<T, StorageRefusal>
        ensures { (code result, given result) ≡ reading (items self.now) place };

    fn write(&mut self, place: usize, x: T) -> Result<(), StorageRefusal>
        ensures room { room self.new ≡ room self.old }
        ensures step { (code result, items self.new) ≡ writing (items self.old) place x };

    fn push(&mut self, x: T) -> Result<(), StorageRefusal>
        ensures room { room self.new ≡ room self.old }
        ensures step { (code result, items self.new) ≡ pushing (room self.old) (items self.old) x };

    // Keeps the first n elements, or all where there are fewer.
    fn truncate(&mut self, n: usize)
        ensures room { room self.new ≡ room self.old }
        ensures items { items self.new ≡ take n (items self.old) };
}
