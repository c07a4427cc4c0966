// What the tables share: the cells of a memory, and where slots go.
ghost use Rattle.std.specs.Prelude.{◌≡◌, not, slice_set, ◌==◌};
ghost use Rattle.base.specs.Counting.{times};
ghost use Rattle.hash_table.specs.Cells.{cell_at, holding, moving};
ghost use Rattle.hash_table.specs.Pairs.{new_slot, homeless};
ghost use Rattle.memory.specs.Refusals.{code};

use crate::index::HashedIndex;
use base::SENTINEL;
use memory::{Memory, StorageRefusal};

// The cell at a place: past the last one all are empty.
pub fn at<M: Memory<HashedIndex>>(memory: &M, place: usize) -> HashedIndex
    ensures { result ≡ cell_at (M.Memory.items memory.now) place }
{
    memory.read(place).unwrap_or(HashedIndex::EMPTY)
}

// Changes the cell at a place, where the memory has that place.
pub fn put<M: Memory<HashedIndex>>(memory: &mut M, place: usize, cell: HashedIndex)
    ensures room { M.Memory.room memory.new ≡ M.Memory.room memory.old }
    ensures items { M.Memory.items memory.new ≡ slice_set (M.Memory.items memory.old) place cell }
{
    let _ = memory.write(place, cell);
}

// Where a slot goes: a list that ends before it has no place for it.
pub fn new_place(places: &[u32], slot: u32) -> u32
    ensures { result ≡ new_slot places.now slot }
{
    places.get(slot as usize).copied().unwrap_or(SENTINEL)
}

// Whether the cell has a new place for the pair that it holds, if it holds one.
fn has_new_place(cell: HashedIndex, places: &[u32]) -> bool
    ensures { result ≡ not (holding (homeless places.now) cell) }
{
    !cell.is_held() || new_place(places, cell.slot) != SENTINEL
}

// Whether each pair has a new place.
fn all_placed<M: Memory<HashedIndex>>(memory: &M, places: &[u32]) -> bool
    ensures { result ≡ (times (holding (homeless places.now)) (M.Memory.items memory.now) == 0) }
{
    (0..memory.len()).all(|i| has_new_place(at(memory, i), places))
}

// All pairs are tested before a cell is changed, so that a refusal changes nothing.
pub fn remap_cells<M: Memory<HashedIndex>>(
    memory: &mut M,
    places: &[u32],
) -> Result<(), StorageRefusal>
    ensures room { M.Memory.room memory.new ≡ M.Memory.room memory.old }
    ensures step { (code result, M.Memory.items memory.new) ≡ moving places.now (M.Memory.items memory.old) }
{
    if !all_placed(memory, places) {
        return Err(StorageRefusal::NoNewPlace);
    }
    for i in 0..memory.len() {
        let cell = at(memory, i);
        let slot = new_place(places, cell.slot);
        put(memory, i, HashedIndex { slot, ..cell });
    }
    Ok(())
}
