// Calls of a map as values, so that a run of them can stand in a table.
ghost use Rattle.std.specs.Prelude.{◌≡◌};
ghost use Rattle.cases.specs.Called.{called};
ghost use Rattle.item.specs.Kinds.{kind_of};
ghost use Rattle.model.specs.Answers.{goes};
ghost use Rattle.model.specs.Model.{step};
ghost use Rattle.model.specs.Told.{overwritten};

use bi_hash_map::BiHashMap;
use item::BiHashItem;
use map_tables::parts::MapParts;
use model::{MapRefusal, Overwritten};

#[derive(Clone, Copy)]
pub enum Call<T> {
    Insert(T),
    Overwrite(T),
}

// Makes a call. A record that is inserted displaces nothing.
pub fn perform<T: BiHashItem, P: MapParts<T>>(
    map: &mut BiHashMap<T, P>,
    call: Call<T>,
) -> Result<Overwritten<T>, MapRefusal<T>>
    ensures step { goes map.new (overwritten result) ≡ step (kind_of T.BiHashItem T.K1.Key T.K2.Key) map.old (called call) }
{
    match call {
        Call::Insert(value) => Ok(Overwritten {
            slot: map.insert(value)?,
            displaced: None,
        }),
        Call::Overwrite(value) => map.insert_overwrite(value),
    }
}
