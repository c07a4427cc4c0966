// The records that a predicate refuses, taken out.
ghost use Rattle.std.specs.Prelude.{◌≡◌};
ghost use Rattle.item_set.specs.Slots.{at};
ghost use Rattle.model.specs.Answers.{goes, counted};
ghost use Rattle.model.specs.Model.{judged, retaining};

use indexed_items::IndexedItems;
use item::BiHashItem;
use item::predicate::Predicate;
use map_tables::parts::MapParts;

// Frees a slot whose record the predicate refuses.
fn judge<T: BiHashItem, P: MapParts<T>, Q: Predicate<R = T>>(
    items: &mut IndexedItems<T, P>,
    slot: u32,
    predicate: &Q,
)
    ensures { items.new.records ≡ judged (Q.Predicate.keeps predicate.now) items.old.records slot (at items.old.records.slots slot) }
{
    if let Some(item) = items.get(slot) {
        if !predicate.keeps(&item) {
            let _ = items.remove(slot);
        }
    }
}

// Frees, by ascending slot, each slot whose record the predicate refuses, and says how many records stand then.
pub fn retain<T: BiHashItem, P: MapParts<T>, Q: Predicate<R = T>>(
    items: &mut IndexedItems<T, P>,
    predicate: &Q,
) -> usize
    ensures { goes items.new.records (counted result) ≡ retaining (Q.Predicate.keeps predicate.now) items.old.records }
{
    for slot in 0..items.slots() {
        judge(items, slot, predicate);
    }
    items.len()
}
