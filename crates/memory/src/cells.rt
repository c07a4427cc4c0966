// Reading and writing a place of a slice, or the refusal: what every memory of cells does with its cells.
ghost use Rattle.std.specs.Prelude.{◌≡◌};
ghost use Rattle.memory.specs.Refusals.{code, given};
ghost use Rattle.memory.specs.Stored.{reading, writing};

use crate::StorageRefusal;

#[tactic(auto, using(crate::proofs::Storing::reading_at, crate::proofs::Storing::reading_past))]
pub fn read<T: Copy>(items: &[T], place: usize) -> Result<T, StorageRefusal>
    ensures { (code result, given result) ≡ reading items.now place }
{
    if place < items.len() {
        Ok(items[place])
    } else {
        Err(StorageRefusal::NoSuchPlace)
    }
}

pub fn write<T: Copy>(items: &mut [T], place: usize, x: T) -> Result<(), StorageRefusal>
    ensures { (code result, items.new) ≡ writing items.old place x }
{
    if place < items.len() {
        items[place] = x;
        Ok(())
    } else {
        Err(StorageRefusal::NoSuchPlace)
    }
}
