// A record taken in that shares no key.
ghost use Rattle.std.specs.Prelude.{◌≡◌};
ghost use Rattle.item.specs.Kinds.{kind_of};
ghost use Rattle.item_set.specs.Slots.{shown};
ghost use Rattle.model.specs.Answers.{goes};
ghost use Rattle.model.specs.Model.{shares, step, insert as inserts};
ghost use Rattle.model.specs.Told.{shared, inserted};

use crate::IndexedItems;
use item::BiHashItem;
use map_tables::parts::MapParts;
use model::{DuplicateItem, Duplicates, MapRefusal};

impl<T: BiHashItem, P: MapParts<T>> IndexedItems<T, P> {
    // The standing records that share a key with a new one, by ascending slot.
    fn sharing(&self, value: &T) -> Option<Duplicates<T>>
        ensures { shared result ≡ shown (shares (kind_of T.BiHashItem T.K1.Key T.K2.Key) value.now) self.now.records.slots }
    {
        Duplicates::in_order(self.find1(&value.key1()), self.find2(&value.key2()))
    }

    // Takes a record in, unless it shares a key with a standing one or as many stand as may.
    pub fn insert(&mut self, value: T) -> Result<u32, MapRefusal<T>>
        ensures { goes self.new.records (inserted result) ≡ step (kind_of T.BiHashItem T.K1.Key T.K2.Key) self.old.records (inserts value) }
    {
        if let Some(duplicates) = self.sharing(&value) {
            return Err(MapRefusal::Duplicate(DuplicateItem {
                new: value,
                duplicates,
            }));
        }
        let hashes = self.make_hashes(&value);
        self.insert_with_hashes(value, hashes)
            .ok_or(MapRefusal::Full)
    }
}
