// A record taken in where others share its keys. An overwrite has two parts: it is prepared, and then committed.
ghost use Rattle.std.specs.Prelude.{◌≡◌};
ghost use Rattle.std.specs.Option.{option_map};
ghost use Rattle.indexed_items.specs.Items.{prepared};
ghost use Rattle.indexed_items.specs.Overwriting.{committing, committed, preparing, AllHashed, released};
ghost use Rattle.item.specs.Kinds.{kind_of};
ghost use Rattle.model.specs.Answers.{goes};
ghost use Rattle.model.specs.Model.{has1, has2, cleared, ousted, step, WellFormed, overwrite as overwrites, replace as replaces};
ghost use Rattle.model.specs.Told.{shared, overwritten};

use crate::IndexedItems;
use crate::removal::PreparedDuplicate;
use item::BiHashItem;
use map_tables::parts::MapParts;
use model::{Duplicates, Found, MapRefusal, Overwritten};

// What is ready for one overwrite: the standing records that share a key with the new one, and its own hashes. It is
// used up by its commit, and no call comes between.
struct PreparedInsertOverwrite {
    first: Option<PreparedDuplicate>,
    second: Option<PreparedDuplicate>,
    hashes: [u64; 2],
}

impl<T: BiHashItem, P: MapParts<T>> IndexedItems<T, P> {
    fn prepare(&self, found: Option<Found<T>>) -> Option<PreparedDuplicate>
        ensures { result ≡ option_map (prepared T.BiHashItem T.K1.Key T.K2.Key P.Hasher.WordHash self.now.hasher) found }
    {
        found.map(|found| self.prepare_duplicate(&found))
    }

    // Finds what shares a key with a new record.
    fn prepare_insert_overwrite(&self, value: &T) -> PreparedInsertOverwrite
        ensures well { WellFormed (kind_of T.BiHashItem T.K1.Key T.K2.Key) self.now.records }
        ensures answer { result ≡ preparing T.BiHashItem T.K1.Key T.K2.Key P.Hasher.WordHash self.now.hasher self.now.records value.now }
    {
        let first = self.find1(&value.key1());
        let second = Found::another(first, self.find2(&value.key2()));
        PreparedInsertOverwrite {
            first: self.prepare(first),
            second: self.prepare(second),
            hashes: self.make_hashes(value),
        }
    }

    fn remove_prepared(&mut self, duplicate: Option<PreparedDuplicate>) -> Option<T>
        requires { AllHashed T.BiHashItem T.K1.Key T.K2.Key P.Hasher.WordHash self.old.hasher self.old.records duplicate }
        ensures hasher { self.new.hasher ≡ self.old.hasher }
        ensures step { (result, self.new.records) ≡ released self.old.records duplicate }
    {
        self.remove_duplicate(duplicate?)
    }

    // Frees what shares a key: the match of the first key before that of the second.
    fn displace(
        &mut self,
        first: Option<PreparedDuplicate>,
        second: Option<PreparedDuplicate>,
    ) -> Option<Duplicates<T>>
        requires well { WellFormed (kind_of T.BiHashItem T.K1.Key T.K2.Key) self.old.records }
        requires prepared { (v : T) × (first ≡ (preparing T.BiHashItem T.K1.Key T.K2.Key P.Hasher.WordHash self.old.hasher self.old.records v).first) × (second ≡ (preparing T.BiHashItem T.K1.Key T.K2.Key P.Hasher.WordHash self.old.hasher self.old.records v).second) }
        ensures hasher { self.new.hasher ≡ self.old.hasher }
        ensures answer { (v : T) → first ≡ (preparing T.BiHashItem T.K1.Key T.K2.Key P.Hasher.WordHash self.old.hasher self.old.records v).first → second ≡ (preparing T.BiHashItem T.K1.Key T.K2.Key P.Hasher.WordHash self.old.hasher self.old.records v).second → shared result ≡ ousted (has1 (kind_of T.BiHashItem T.K1.Key T.K2.Key) (T.BiHashItem.first v)) (has2 (kind_of T.BiHashItem T.K1.Key T.K2.Key) (T.BiHashItem.second v)) self.old.records }
        ensures state { (v : T) → first ≡ (preparing T.BiHashItem T.K1.Key T.K2.Key P.Hasher.WordHash self.old.hasher self.old.records v).first → second ≡ (preparing T.BiHashItem T.K1.Key T.K2.Key P.Hasher.WordHash self.old.hasher self.old.records v).second → self.new.records ≡ cleared (has1 (kind_of T.BiHashItem T.K1.Key T.K2.Key) (T.BiHashItem.first v)) (has2 (kind_of T.BiHashItem T.K1.Key T.K2.Key) (T.BiHashItem.second v)) self.old.records }
    {
        let first = self.remove_prepared(first);
        let second = self.remove_prepared(second);
        Duplicates::in_turn(first, second)
    }

    // Frees what shares a key and puts the new record in. None where nothing shares a key and as many records stand as may.
    fn commit_insert_overwrite(
        &mut self,
        value: T,
        prepared: PreparedInsertOverwrite,
    ) -> Option<Overwritten<T>>
        requires well { WellFormed (kind_of T.BiHashItem T.K1.Key T.K2.Key) self.old.records }
        requires prepared { prepared ≡ preparing T.BiHashItem T.K1.Key T.K2.Key P.Hasher.WordHash self.old.hasher self.old.records value }
        ensures { goes self.new.records (committed result) ≡ committing (has1 (kind_of T.BiHashItem T.K1.Key T.K2.Key) (T.BiHashItem.first value)) (has2 (kind_of T.BiHashItem T.K1.Key T.K2.Key) (T.BiHashItem.second value)) value self.old.records }
    {
        let PreparedInsertOverwrite {
            first,
            second,
            hashes,
        } = prepared;
        let displaced = self.displace(first, second);
        let slot = self.insert_with_hashes(value, hashes)?;
        Some(Overwritten { slot, displaced })
    }

    // Takes a record in, and hands back the standing ones that share a key with it. Only where none does can it be refused: as
    // many stand as may.
    pub fn insert_overwrite(&mut self, value: T) -> Result<Overwritten<T>, MapRefusal<T>>
        ensures { goes self.new.records (overwritten result) ≡ step (kind_of T.BiHashItem T.K1.Key T.K2.Key) self.old.records (overwrites value) }
    {
        let prepared = self.prepare_insert_overwrite(&value);
        self.commit_insert_overwrite(value, prepared)
            .ok_or(MapRefusal::Full)
    }

    // Puts a record in the place of those that share a key with it; refused where none does. A record with both keys is
    // exchanged in its slot.
    pub fn replace(&mut self, value: T) -> Result<Overwritten<T>, MapRefusal<T>>
        ensures { goes self.new.records (overwritten result) ≡ step (kind_of T.BiHashItem T.K1.Key T.K2.Key) self.old.records (replaces value) }
    {
        let first = self.find1(&value.key1());
        let second = self.find2(&value.key2());
        match (first, second) {
            (None, None) => Err(MapRefusal::NotThere),
            (Some(found), Some(other)) if found.slot == other.slot => {
                let _ = self.exchange(&found, value);
                Ok(Overwritten {
                    slot: found.slot,
                    displaced: Some(Duplicates::One(found.item)),
                })
            }
            _ => self.insert_overwrite(value),
        }
    }
}
