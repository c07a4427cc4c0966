// What field service does with a map: a list goes in, and each record is read back under both its keys.
#![tactic(auto)]

ghost use Rattle.std.specs.Prelude.{◌≡◌};
ghost use Rattle.field_service.specs.Read.{all_inserted, read};
ghost use Rattle.item.specs.Kinds.{kind_of};

use bi_hash_map::BiHashMap;
use item::BiHashItem;
use map_tables::parts::MapParts;
use model::Found;

// A record, and what its first key and its second key found.
#[derive(Clone, Copy)]
pub struct ReadBack<T> {
    pub item: T,
    pub first: Option<Found<T>>,
    pub second: Option<Found<T>>,
}

// Takes records in, in order. One that is refused is passed over.
pub fn insert_all<T: BiHashItem, P: MapParts<T>>(map: &mut BiHashMap<T, P>, rows: &[T])
    ensures { map.new ≡ all_inserted (kind_of T.BiHashItem T.K1.Key T.K2.Key) map.old rows.now }
{
    for row in rows {
        let _ = map.insert(*row);
    }
}

// Looks a record up under both its keys.
pub fn read_back<T: BiHashItem, P: MapParts<T>>(map: &BiHashMap<T, P>, item: &T) -> ReadBack<T>
    ensures { result ≡ read (kind_of T.BiHashItem T.K1.Key T.K2.Key) map.now item.now }
{
    ReadBack {
        item: *item,
        first: map.get1(&item.key1()).ok(),
        second: map.get2(&item.key2()).ok(),
    }
}
