// Reads traces of calls, runs each on three maps of its own, and says of each call whether the three answered alike.
#![tactic(auto)]

use agreement::{Agreement, agree};
use base::SENTINEL;
use hash_table::index::HashedIndex;
use hash_table::linear::LinearTable;
use hashing::flat::Flat;
use hashing::fnv::Fnv1a;
use item::crossed::Crossed;
use item_set::slot::ItemSlot;
use map_tables::parts::Parts;
use memory::Memory;
use memory::lent::Lent;
use pair_block::PairBlock;
use probing_table::ProbingTable;
use std::alloc::{AllocError, Global};
use std::io;
use traces::Event;
use worked_cases::Pair;

mod balance;
mod calls;
mod comparing;
mod reading;
mod report;
mod telling;

use balance::Balance;
use calls::PairCall;
use reading::{Line, ReadError, read_line};
use report::Report;
use telling::{Told, tell, tell_crossed};

// How many places the memories and the lent tables have.
const ROOM: usize = 64;

// The calls of a trace, and how many records the maps are asked to hold.
#[derive(Drop)]
struct Script {
    wanted: usize,
    calls: Vec<PairCall>,
}

// Runs a script on three maps whose parts have nothing in common but their contracts: linear tables in lent memory; probing
// tables, one in a block, under a hash by which all keys clash; and with the keys exchanged a linear table in a block and a
// probing one in lent memory.
fn run_script(script: &Script, heap: Global) -> Result<Agreement<Pair>, AllocError> {
    let mut slots = [ItemSlot::Vacant(SENTINEL); ROOM];
    let mut first = [HashedIndex::EMPTY; ROOM];
    let mut second = [HashedIndex::EMPTY; ROOM];
    let one = Parts {
        memory: Lent::new(&mut slots),
        first: LinearTable::new(Lent::new(&mut first)),
        second: LinearTable::new(Lent::new(&mut second)),
        state: Fnv1a,
    };
    let mut slots = [ItemSlot::Vacant(SENTINEL); ROOM];
    let mut second = [HashedIndex::EMPTY; ROOM];
    let two = Parts {
        memory: Lent::new(&mut slots),
        first: ProbingTable::new(PairBlock::new()),
        second: ProbingTable::new(Lent::new(&mut second)),
        state: Flat,
    };
    let mut slots = [ItemSlot::Vacant(SENTINEL); ROOM];
    let mut second = [HashedIndex::EMPTY; ROOM];
    let three = Parts {
        memory: Lent::new(&mut slots),
        first: LinearTable::new(PairBlock::new()),
        second: ProbingTable::new(Lent::new(&mut second)),
        state: Fnv1a,
    };
    agree(
        script.wanted,
        script.calls.as_slice(),
        one,
        two,
        three,
        heap,
    )
}

// Reads scripts from standard input: a line with a capacity begins another one. A line that cannot be read is reported and
// passed over.
fn read_scripts(rt: &HostRuntime) -> io::Result<Vec<Script>> {
    let mut scripts = Vec::new(rt.alloc());
    let mut script = Script {
        wanted: ROOM,
        calls: Vec::new(rt.alloc()),
    };
    for (line, number) in rt.lines(rt.alloc()).zip(1u64..) {
        match read_line(line?.as_str(), rt.alloc()) {
            Ok(Line::Blank) => {}
            Ok(Line::Capacity(wanted)) => {
                if !script.calls.is_empty() {
                    scripts.push(script)?;
                    script = Script {
                        wanted,
                        calls: Vec::new(rt.alloc()),
                    };
                }
                script.wanted = wanted;
            }
            Ok(Line::Call(call)) => script.calls.push(call)?,
            Err(ReadError::Expected(expected)) => println!(rt;
                "line {number}: not read, expected {expected}"
            )?,
            Err(ReadError::OutOfMemory(error)) => return Err(error.into()),
        }
    }
    scripts.push(script)?;
    Ok(scripts)
}

// Reports a call, and answers what the first map told of it.
fn report_call(
    rt: &HostRuntime,
    call: &PairCall,
    first: &Event<Pair>,
    second: &Event<Pair>,
    crossed: &Event<Crossed<Pair>>,
) -> io::Result<Told> {
    let heap = rt.alloc();
    let first = tell(first, heap)?;
    let second = tell(second, heap)?;
    let crossed = tell_crossed(crossed, heap)?;
    let report = Report {
        call,
        first: &first,
        second: &second,
        crossed: &crossed,
    };
    println!(rt; "{report}")?;
    Ok(first)
}

// Reports each call of a script, and then what became of the records that were taken in.
fn report_all(rt: &HostRuntime, script: &Script, agreement: &Agreement<Pair>) -> io::Result<()> {
    let capacity = agreement.capacity;
    println!(rt; "capacity {capacity}")?;
    let mut balance = Balance::new(rt.alloc());
    let told = agreement
        .first
        .iter()
        .zip(agreement.second.iter())
        .zip(agreement.crossed.iter());
    for (call, ((first, second), crossed)) in script.calls.iter().zip(told) {
        let told = report_call(rt, call, first, second, crossed)?;
        balance.note(call, told);
    }
    println!(rt; "{balance}")
}

fn main(rt: HostRuntime) -> io::Result<()> {
    let scripts = read_scripts(&rt)?;
    for script in scripts.iter() {
        let agreement = run_script(script, rt.alloc())?;
        report_all(&rt, script, &agreement)?;
    }
    Ok(())
}
