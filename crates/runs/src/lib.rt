// Runs: a trace of calls made on a map, one after the other, with what each of them left behind.
#![tactic(auto)]

ghost use Rattle.std.specs.Prelude.{◌≡◌, IfOk, OnOk};
ghost use Rattle.item.specs.Kinds.{kind_of};
ghost use Rattle.item_set.specs.Slots.{anyone, shown};
ghost use Rattle.model.specs.Answers.{goes};
ghost use Rattle.model.specs.Shrinking.{with_scratch};
ghost use Rattle.runs.specs.Scratches.{scratch_of};
ghost use Rattle.traces.specs.Calls.{request_of, trace_of};
ghost use Rattle.traces.specs.Logs.{entry_of, log_of, outcome_of};
ghost use Rattle.traces.specs.Runs.{entered, respond, run as runs_to, left};

use bi_hash_map::BiHashMap;
use item::BiHashItem;
use item::predicate::Predicate;
use map_tables::parts::MapParts;
use std::alloc::{AllocError, Global};
use traces::{Call, Event, Outcome};

// The standing records, by ascending slot.
pub fn standing<T: BiHashItem, P: MapParts<T>>(
    map: &BiHashMap<T, P>,
    heap: Global,
) -> Result<Vec<T>, AllocError>
    ensures { IfOk result (λ v. v.items ≡ shown anyone map.now.slots) }
{
    (0..map.slots())
        .filter_map(|slot| map.get_slot(slot))
        .collect(heap)
}

// A copy of the scratch that a call brings, since a shrink writes to it. Any other call brings an empty one.
fn brought<T: BiHashItem, Q: Predicate<R = T>>(
    call: &Call<T, T::K1, T::K2, Q>,
    heap: Global,
) -> Result<Vec<u32>, AllocError>
    ensures { IfOk result (λ v. v.items ≡ scratch_of (request_of Q.Predicate.keeps call.now)) }
{
    match call {
        Call::Shrink(scratch) => Vec::from_slice(heap, scratch),
        _ => Ok(Vec::new(heap)),
    }
}

// Makes a call, on a scratch that holds what the call brings.
fn make<T: BiHashItem, P: MapParts<T>, Q: Predicate<R = T>>(
    map: &mut BiHashMap<T, P>,
    call: &Call<T, T::K1, T::K2, Q>,
    scratch: &mut [u32],
) -> Outcome<T>
    ensures { scratch.old ≡ scratch_of (request_of Q.Predicate.keeps call.now) → with_scratch scratch.new (goes map.new (outcome_of result)) ≡ respond (kind_of T.BiHashItem T.K1.Key T.K2.Key) map.old (request_of Q.Predicate.keeps call.now) }
{
    match call {
        Call::Insert(value) => Outcome::Inserted(map.insert(*value)),
        Call::Overwrite(value) => Outcome::Overwritten(map.insert_overwrite(*value)),
        Call::Replace(value) => Outcome::Overwritten(map.replace(*value)),
        Call::Get1(key) => Outcome::Found(map.get1(key)),
        Call::Get2(key) => Outcome::Found(map.get2(key)),
        Call::GetUnique(key1, key2) => Outcome::Found(map.get_unique(key1, key2)),
        Call::Remove1(key) => Outcome::Found(map.remove1(key)),
        Call::Remove2(key) => Outcome::Found(map.remove2(key)),
        Call::RemoveUnique(key1, key2) => Outcome::Found(map.remove_unique(key1, key2)),
        Call::Retain(predicate) => Outcome::Counted(map.retain(predicate)),
        Call::Shrink(_) => Outcome::Shrunk(map.shrink_to_fit(scratch)),
        Call::Len => Outcome::Counted(map.len()),
    }
}

// Makes a call, and notes what it left behind. Where there is no memory for that, the call may have been made.
pub fn perform<T: BiHashItem, P: MapParts<T>, Q: Predicate<R = T>>(
    map: &mut BiHashMap<T, P>,
    call: &Call<T, T::K1, T::K2, Q>,
    heap: Global,
) -> Result<Event<T>, AllocError>
    ensures entry { IfOk result (λ event. entry_of event ≡ entered (respond (kind_of T.BiHashItem T.K1.Key T.K2.Key) map.old (request_of Q.Predicate.keeps call.now))) }
    ensures state { OnOk result (map.new ≡ (respond (kind_of T.BiHashItem T.K1.Key T.K2.Key) map.old (request_of Q.Predicate.keeps call.now)).step.after) }
{
    let mut scratch = brought(call, heap)?;
    let outcome = make(map, call, scratch.as_mut_slice());
    let standing = standing(map, heap)?;
    Ok(Event {
        outcome,
        scratch,
        standing,
    })
}

// Makes the calls of a trace in order, and answers what each left behind.
pub fn run<T: BiHashItem, P: MapParts<T>, Q: Predicate<R = T>>(
    map: &mut BiHashMap<T, P>,
    trace: &[Call<T, T::K1, T::K2, Q>],
    heap: Global,
) -> Result<Vec<Event<T>>, AllocError>
    ensures log { IfOk result (λ events. log_of events.items ≡ runs_to (kind_of T.BiHashItem T.K1.Key T.K2.Key) map.old (trace_of Q.Predicate.keeps trace.now)) }
    ensures state { OnOk result (map.new ≡ left (kind_of T.BiHashItem T.K1.Key T.K2.Key) map.old (trace_of Q.Predicate.keeps trace.now)) }
{
    let mut events = Vec::new(heap);
    for call in trace {
        events.push(perform(map, call, heap)?)?;
    }
    Ok(events)
}
