// Runs of calls on a small map of pairs, with each call's answer.
#![tactic(auto)]

use base::SENTINEL;
use bi_hash_map::BiHashMap;
use hash_table::HashTable;
use hash_table::index::HashedIndex;
use hash_table::linear::LinearTable;
use hashing::fnv::Fnv1a;
use item_set::slot::ItemSlot;
use map_tables::parts::{MapParts, Parts};
use memory::Memory;
use memory::lent::Lent;
use std::io;
use worked_cases::Pair;

mod call;
mod runs;
mod text;

use call::{Call, perform};
use runs::{RUNS, Run};
use text::Answer;

type PairMap<'a> = BiHashMap<
    Pair,
    Parts<
        Lent<'a, ItemSlot<Pair>>,
        LinearTable<Lent<'a, HashedIndex>>,
        LinearTable<Lent<'a, HashedIndex>>,
        Fnv1a,
    >,
>;

// Makes calls in order, with a line for each.
fn report_calls(rt: &impl Print, map: &mut PairMap, calls: &[Call<Pair>]) -> io::Result<()> {
    for call in calls {
        let answer = Answer(perform(map, *call));
        println!(rt; "{call}: {answer}")?;
    }
    Ok(())
}

// Makes the calls of a run on a map of its own, on parts with room for two records.
fn report(rt: &impl Print, run: &Run) -> io::Result<()> {
    let mut slots = [ItemSlot::Vacant(SENTINEL); 2];
    let mut first = [HashedIndex::EMPTY; 2];
    let mut second = [HashedIndex::EMPTY; 2];
    let mut map: PairMap = BiHashMap::new(
        run.wanted,
        Parts {
            memory: Lent::new(&mut slots),
            first: LinearTable::new(Lent::new(&mut first)),
            second: LinearTable::new(Lent::new(&mut second)),
            state: Fnv1a,
        },
    );
    let shows = run.shows;
    let capacity = map.capacity();
    println!(rt; "{shows}, in a map of {capacity}")?;
    report_calls(rt, &mut map, run.before)?;
    report_calls(rt, &mut map, run.calls)
}

fn main(rt: HostRuntime) -> io::Result<()> {
    for run in &RUNS {
        report(&rt, run)?;
    }
    Ok(())
}
