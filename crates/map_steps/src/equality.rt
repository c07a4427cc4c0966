// Whether two sets of records are equal.
ghost use Rattle.std.specs.Prelude.{◌≡◌};
ghost use Rattle.item.specs.Kinds.{kind_of};
ghost use Rattle.model.specs.Model.{meets, equal};

use crate::lookup::find_unique;
use indexed_items::IndexedItems;
use item::comparable::Comparable;
use map_tables::parts::MapParts;

// Whether a record meets one like it, in one slot under both keys.
fn has_like<T: Comparable, P: MapParts<T>>(items: &IndexedItems<T, P>, item: &T) -> bool
    ensures { result ≡ meets (kind_of T.BiHashItem T.K1.Key T.K2.Key) T.Comparable.alike items.now.records item.now }
{
    find_unique(items, &item.key1(), &item.key2()).is_some_and(|found| item.is_alike(&found.item))
}

// Whether as many records stand in the second, and each of the first meets one like it there. The parts may differ.
pub fn equal<T: Comparable, P: MapParts<T>, O: MapParts<T>>(
    first: &IndexedItems<T, P>,
    second: &IndexedItems<T, O>,
) -> bool
    ensures { result ≡ equal (kind_of T.BiHashItem T.K1.Key T.K2.Key) T.Comparable.alike first.now.records second.now.records }
{
    if first.len() != second.len() {
        return false;
    }
    for slot in 0..first.slots() {
        if let Some(item) = first.get(slot) {
            if !has_like(second, &item) {
                return false;
            }
        }
    }
    true
}
