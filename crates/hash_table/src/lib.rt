// Tables of pairs of a hash and a slot.
#![tactic(auto)]

ghost use Rattle.std.specs.Prelude.{◌≡◌, ℕ, ◌≤◌, List, [], ◌∷◌, length, MatchResult};
ghost use Rattle.base.specs.Counting.{Same};
ghost use Rattle.hash_table.specs.Pairs.{candidate, adding, removing, remapping};
ghost use Rattle.memory.specs.Refusals.{code};

use memory::StorageRefusal;

pub mod cells;
pub mod index;
pub mod linear;

// A table by the list of its pairs, in an order of its own, and a capacity. Questions and refusals change nothing, and a
// capacity stays.
pub trait HashTable {
    ghost pairs: { Self → List (ℕ × ℕ) };

    ghost room: { Self → ℕ };

    fn len(&self) -> usize
        ensures count { result ≡ length (pairs self.now) }
        ensures bounded { length (pairs self.now) ≤ room self.now };

    fn capacity(&self) -> usize
        ensures { result ≡ room self.now };

    // The slot of pair k, from 0, among those with the hash.
    fn candidate(&self, hash: u64, k: usize) -> Option<u32>
        ensures { result ≡ candidate (pairs self.now) hash k };

    fn add(&mut self, hash: u64, slot: u32) -> Result<(), StorageRefusal>
        ensures room { room self.new ≡ room self.old }
        ensures code { code result ≡ adding (room self.old) (pairs self.old) }
        ensures pairs { MatchResult result (λ _. Same (pairs self.new) ((hash, slot) ∷ pairs self.old)) (λ _. pairs self.new ≡ pairs self.old) };

    // Takes one such pair out.
    fn remove(&mut self, hash: u64, slot: u32) -> Result<(), StorageRefusal>
        ensures room { room self.new ≡ room self.old }
        ensures code { code result ≡ removing (pairs self.old) hash slot }
        ensures pairs { MatchResult result (λ _. Same (pairs self.old) ((hash, slot) ∷ pairs self.new)) (λ _. pairs self.new ≡ pairs self.old) };

    fn clear(&mut self)
        ensures room { room self.new ≡ room self.old }
        ensures pairs { pairs self.new ≡ [] };

    // Turns each slot s into place s of the list.
    fn remap(&mut self, places: &[u32]) -> Result<(), StorageRefusal>
        ensures room { room self.new ≡ room self.old }
        ensures step { (code result, pairs self.new) ≡ remapping places.now (pairs self.old) };
}
