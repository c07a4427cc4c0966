// The record that has two given keys.
ghost use Rattle.std.specs.Prelude.{◌≡◌};
ghost use Rattle.item.specs.Kinds.{kind_of};
ghost use Rattle.model.specs.Model.{find, both, has1, has2};

use indexed_items::IndexedItems;
use item::{BiHashItem, Key};
use map_tables::parts::MapParts;
use model::Found;

// Found under the first key, and compared by the second.
pub fn find_unique<T: BiHashItem, P: MapParts<T>>(
    items: &IndexedItems<T, P>,
    key1: &T::K1,
    key2: &T::K2,
) -> Option<Found<T>>
    ensures { result ≡ find (both (has1 (kind_of T.BiHashItem T.K1.Key T.K2.Key) key1.now) (has2 (kind_of T.BiHashItem T.K1.Key T.K2.Key) key2.now)) 0 items.now.records.slots }
{
    items
        .find1(key1)
        .filter(|found| key2.equals(&found.item.key2()))
}
