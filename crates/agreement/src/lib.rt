// One trace run three times: on two maps of the same records, and with the keys exchanged on a map of crossed records. The
// parts of the three maps may be of any kinds.
#![tactic(auto)]

ghost use Rattle.std.specs.Prelude.{◌≡◌, IfOk};
ghost use Rattle.agreement.specs.Rooms.{common};
ghost use Rattle.indexed_items.specs.Items.{least};
ghost use Rattle.map_tables.specs.Rooms.{parts_room};
ghost use Rattle.item.specs.Kinds.{kind_of};
ghost use Rattle.item_set.specs.States.{fresh};
ghost use Rattle.traces.specs.Calls.{trace_of};
ghost use Rattle.traces.specs.Laws.{Agreed};
ghost use Rattle.traces.specs.Logs.{log_of};
ghost use Rattle.traces.specs.Runs.{run as runs_to};

use bi_hash_map::BiHashMap;
use item::BiHashItem;
use item::crossed::Crossed;
use item::predicate::Predicate;
use item_set::set::MOST;
use map_tables::parts::MapParts;
use runs::run;
use std::alloc::{AllocError, Global};
use traces::{Call, Event};

pub mod crossing;
pub mod parts;

use crossing::crossed_trace;

// What the three runs left behind, and how many records each of the three maps could hold.
#[derive(Drop)]
pub struct Agreement<T> {
    pub capacity: usize,
    pub first: Vec<Event<T>>,
    pub second: Vec<Event<T>>,
    pub crossed: Vec<Event<Crossed<T>>>,
}

// How many records each of three maps may hold, so that all may hold as many.
fn common_capacity(wanted: usize, first: usize, second: usize, third: usize) -> usize
    ensures { result ≡ common wanted first second third }
{
    MOST.min(wanted.min(first.min(second.min(third))))
}

// Makes the calls of a trace on a map of its own.
fn run_on<T: BiHashItem, P: MapParts<T>, Q: Predicate<R = T>>(
    wanted: usize,
    parts: P,
    trace: &[Call<T, T::K1, T::K2, Q>],
    heap: Global,
) -> Result<Vec<Event<T>>, AllocError>
where
    P::Memory: Drop,
    P::First: Drop,
    P::Second: Drop,
    P::Hasher: Drop,
    ensures { IfOk result (λ events. log_of events.items ≡ runs_to (kind_of T.BiHashItem T.K1.Key T.K2.Key) (fresh (least wanted (P.Memory.Memory.room (P.MapParts.parts parts).memory) (P.First.HashTable.room (P.MapParts.parts parts).first) (P.Second.HashTable.room (P.MapParts.parts parts).second))) (trace_of Q.Predicate.keeps trace.now)) }
{
    let mut map = BiHashMap::new(wanted, parts);
    run(&mut map, trace, heap)
}

// Runs a trace on two maps of the same records, and with its keys exchanged on a third. Each map holds as many records as the
// smallest parts allow, so that all are full at once. The parts are emptied first, whatever they hold.
pub fn agree<
    T: BiHashItem,
    P: MapParts<T> + Drop,
    O: MapParts<T> + Drop,
    X: MapParts<Crossed<T>> + Drop,
    Q: Predicate<R = T> + Copy,
>(
    wanted: usize,
    trace: &[Call<T, T::K1, T::K2, Q>],
    one: P,
    two: O,
    three: X,
    heap: Global,
) -> Result<Agreement<T>, AllocError>
where
    P::Memory: Drop,
    P::First: Drop,
    P::Second: Drop,
    P::Hasher: Drop,
    O::Memory: Drop,
    O::First: Drop,
    O::Second: Drop,
    O::Hasher: Drop,
    X::Memory: Drop,
    X::First: Drop,
    X::Second: Drop,
    X::Hasher: Drop,
    ensures capacity { IfOk result (λ a. a.capacity ≡ common wanted (parts_room P.Memory.Memory P.First.HashTable P.Second.HashTable (P.MapParts.parts one)) (parts_room O.Memory.Memory O.First.HashTable O.Second.HashTable (O.MapParts.parts two)) (parts_room X.Memory.Memory X.First.HashTable X.Second.HashTable (X.MapParts.parts three))) }
    ensures agreed { IfOk result (λ a. Agreed (kind_of T.BiHashItem T.K1.Key T.K2.Key) a.capacity (trace_of Q.Predicate.keeps trace.now) (log_of a.first.items) (log_of a.second.items) (log_of a.crossed.items)) }
{
    let capacity = common_capacity(wanted, one.room(), two.room(), three.room());
    let exchanged = crossed_trace(trace, heap)?;
    let first = run_on(capacity, one, trace, heap)?;
    let second = run_on(capacity, two, trace, heap)?;
    let crossed = run_on(capacity, three, exchanged.as_slice(), heap)?;
    Ok(Agreement {
        capacity,
        first,
        second,
        crossed,
    })
}
