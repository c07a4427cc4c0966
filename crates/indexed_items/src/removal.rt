// A record taken out: it is prepared, and then removed.
ghost use Rattle.std.specs.Prelude.{◌≡◌};
ghost use Rattle.indexed_items.specs.Items.{prepared};
ghost use Rattle.indexed_items.specs.Overwriting.{Hashed};
ghost use Rattle.item_set.specs.States.{removing};

use crate::IndexedItems;
use item::BiHashItem;
use map_tables::parts::MapParts;
use model::Found;

// A standing record that is about to be removed: its slot and the hashes of its keys. It is used up by its removal.
pub(crate) struct PreparedDuplicate {
    index: u32,
    hashes: [u64; 2],
}

impl<T: BiHashItem, P: MapParts<T>> IndexedItems<T, P> {
    // Makes a standing record ready to be removed.
    pub(crate) fn prepare_duplicate(&self, found: &Found<T>) -> PreparedDuplicate
        ensures { result ≡ prepared T.BiHashItem T.K1.Key T.K2.Key P.Hasher.WordHash self.now.hasher found.now }
    {
        PreparedDuplicate {
            index: found.slot,
            hashes: self.make_hashes(&found.item),
        }
    }

    // Removes the record that was prepared, from its slot and from both tables.
    pub(crate) fn remove_duplicate(&mut self, duplicate: PreparedDuplicate) -> Option<T>
        requires { Hashed T.BiHashItem T.K1.Key T.K2.Key P.Hasher.WordHash self.old.hasher self.old.records duplicate }
        ensures hasher { self.new.hasher ≡ self.old.hasher }
        ensures step { (result, self.new.records) ≡ removing self.old.records duplicate.index }
    {
        let PreparedDuplicate { index, hashes } = duplicate;
        let [hash1, hash2] = hashes;
        let removed = self.items.remove(index)?;
        self.tables.k1_to_item.remove_prehashed(hash1, index).ok()?;
        self.tables.k2_to_item.remove_prehashed(hash2, index).ok()?;
        Some(removed)
    }

    // Takes the record out of a slot. None, and nothing done, where none stands there.
    pub fn remove(&mut self, slot: u32) -> Option<T>
        ensures hasher { self.new.hasher ≡ self.old.hasher }
        ensures step { (result, self.new.records) ≡ removing self.old.records slot }
    {
        let item = self.get(slot)?;
        let duplicate = self.prepare_duplicate(&Found { slot, item });
        self.remove_duplicate(duplicate)
    }
}
