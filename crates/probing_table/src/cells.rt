// The cells of a memory, and what one of them holds.
ghost use Rattle.std.specs.Prelude.{◌≡◌, ◌<◌, not, replicate};
ghost use Rattle.hash_table.specs.Cells.{held, holding, empty_cell};
ghost use Rattle.hash_table.specs.Pairs.{is_pair};
ghost use Rattle.probing_table.specs.Marks.{vacant, removed, answers};
ghost use Rattle.probing_table.specs.Probed.{LaidBut, Tidied};

use crate::ring::{after, before};
use hash_table::cells::{at, put};
use hash_table::index::{HashedIndex, Mark};
use memory::Memory;

// What stands where a pair was taken out.
pub(crate) const REMOVED: HashedIndex = HashedIndex {
    hash: 0,
    slot: 0,
    mark: Mark::Removed,
};

// Empty cells up to the capacity, whatever the memory held.
pub(crate) fn fill<M: Memory<HashedIndex>>(memory: &mut M)
    ensures room { M.Memory.room memory.new ≡ M.Memory.room memory.old }
    ensures items { M.Memory.items memory.new ≡ replicate (M.Memory.room memory.old) empty_cell }
{
    memory.truncate(0);
    for _i in 0..memory.capacity() {
        // Not refused, since there is room.
        let _ = memory.push(HashedIndex::EMPTY);
    }
}

// Empties the cell at a place if it is a removed one right before an empty one, then the one before it, and so on.
pub(crate) fn tidy<M: Memory<HashedIndex>>(memory: &mut M, place: usize)
    requires there { place < M.Memory.room memory.old }
    requires laid { LaidBut place (M.Memory.room memory.old) (M.Memory.items memory.old) }
    ensures room { M.Memory.room memory.new ≡ M.Memory.room memory.old }
    ensures tidied { Tidied (M.Memory.room memory.old) (M.Memory.items memory.old) (M.Memory.items memory.new) }
{
    let n = memory.capacity();
    let mut last = place;
    for _j in 0..n {
        let cell = at(memory, last);
        if !is_removed(cell) {
            return;
        }
        let next = at(memory, after(last, n));
        if !is_vacant(next) {
            return;
        }
        put(memory, last, HashedIndex::EMPTY);
        last = before(last, n);
    }
}

pub(crate) fn is_vacant(cell: HashedIndex) -> bool
    ensures { result ≡ vacant cell }
{
    cell.mark == Mark::Empty
}

fn is_removed(cell: HashedIndex) -> bool
    ensures { result ≡ removed cell }
{
    cell.mark == Mark::Removed
}

// Whether a pair may be put into the cell.
pub(crate) fn is_free(cell: HashedIndex) -> bool
    ensures { result ≡ not (held cell) }
{
    !cell.is_held()
}

// Whether the cell holds a pair with the hash.
pub(crate) fn holds_hash(cell: HashedIndex, hash: u64) -> bool
    ensures { result ≡ answers hash cell }
{
    cell.is_held() && cell.hash == hash
}

// Whether the cell holds the pair.
pub(crate) fn holds_pair(cell: HashedIndex, hash: u64, slot: u32) -> bool
    ensures { result ≡ holding (is_pair hash slot) cell }
{
    cell.is_held() && cell.hash == hash && cell.slot == slot
}
