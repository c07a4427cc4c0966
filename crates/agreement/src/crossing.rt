// Calls with their keys exchanged, for a map of crossed records.
ghost use Rattle.std.specs.Prelude.{◌≡◌, map, IfOk};
ghost use Rattle.agreement.specs.Inside.{keeps_inside};
ghost use Rattle.traces.specs.Calls.{request_of, trace_of};
ghost use Rattle.traces.specs.Laws.{cross};

use item::BiHashItem;
use item::crossed::Crossed;
use item::predicate::{Inside, Predicate};
use std::alloc::{AllocError, Global};
use traces::Call;

// The call that does to a map of crossed records what a call does to a map of the records themselves.
pub fn crossed<T: BiHashItem, Q: Predicate<R = T> + Copy>(
    call: &Call<T, T::K1, T::K2, Q>,
    heap: Global,
) -> Result<Call<Crossed<T>, T::K2, T::K1, Inside<Q>>, AllocError>
    ensures { IfOk result (λ c. request_of (keeps_inside Q.Predicate.keeps) c ≡ cross (request_of Q.Predicate.keeps call.now)) }
{
    match call {
        Call::Insert(value) => Ok(Call::Insert(Crossed { inner: *value })),
        Call::Overwrite(value) => Ok(Call::Overwrite(Crossed { inner: *value })),
        Call::Replace(value) => Ok(Call::Replace(Crossed { inner: *value })),
        Call::Get1(key) => Ok(Call::Get2(*key)),
        Call::Get2(key) => Ok(Call::Get1(*key)),
        Call::GetUnique(key1, key2) => Ok(Call::GetUnique(*key2, *key1)),
        Call::Remove1(key) => Ok(Call::Remove2(*key)),
        Call::Remove2(key) => Ok(Call::Remove1(*key)),
        Call::RemoveUnique(key1, key2) => Ok(Call::RemoveUnique(*key2, *key1)),
        Call::Retain(predicate) => Ok(Call::Retain(Inside {
            predicate: *predicate,
        })),
        Call::Shrink(scratch) => Ok(Call::Shrink(Vec::from_slice(heap, scratch)?)),
        Call::Len => Ok(Call::Len),
    }
}

// A trace of such calls.
pub fn crossed_trace<T: BiHashItem, Q: Predicate<R = T> + Copy>(
    trace: &[Call<T, T::K1, T::K2, Q>],
    heap: Global,
) -> Result<Vec<Call<Crossed<T>, T::K2, T::K1, Inside<Q>>>, AllocError>
    ensures { IfOk result (λ calls. trace_of (keeps_inside Q.Predicate.keeps) calls.items ≡ map cross (trace_of Q.Predicate.keeps trace.now)) }
{
    let mut calls = Vec::new(heap);
    for call in trace {
        calls.push(crossed(call, heap)?)?;
    }
    Ok(calls)
}
