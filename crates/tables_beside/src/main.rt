// Each kind of table over each kind of memory, beside a plain list of pairs: the same calls on both, with hashes that spread
// and with one hash for all, and every difference counted.
#![tactic(auto)]

ghost use Rattle.std.specs.Prelude.{Some};
ghost use Rattle.tables_beside.specs.Tallied.{tally_text};

use base::SENTINEL;
use hash_table::HashTable;
use hash_table::index::HashedIndex;
use hash_table::linear::LinearTable;
use memory::lent::Lent;
use memory::{Memory, StorageRefusal};
use pair_block::PairBlock;
use probing_table::ProbingTable;
use std::alloc::{AllocError, Global};
use std::fmt;

mod list;
mod numbers;

use list::List;
use numbers::Numbers;

// How many calls are made on each table.
const CALLS: usize = 5000;

// Slots are below this, so that pairs meet often, and a list of new places has this many.
const SLOTS: u32 = 16;

// New places: each slot moved along by five, and the same but for slot 3, which has none.
const PLACES_TURNED: [u32; 16] = [5, 6, 7, 8, 9, 10, 11, 12, 13, 14, 15, 0, 1, 2, 3, 4];

const PLACES_WITHOUT_ONE: [u32; 16] = [5, 6, 7, SENTINEL, 9, 10, 11, 12, 13, 14, 15, 0, 1, 2, 3, 4];

// What a table's call answers.
type Answer = Result<(), StorageRefusal>;

// What was counted.
#[derive(Clone, Copy)]
struct Tally {
    refused: usize,
    differences: usize,
}

impl fmt::Display for Tally {
    ghost output = { λ tally. Some (tally_text tally) };

    fn fmt<W: fmt::Write>(&self, f: &mut fmt::Formatter<W>) -> fmt::Result {
        let (refused, differences) = (self.refused, self.differences);
        write!(
            f,
            "{CALLS} calls, {refused} refused, {differences} differences"
        )
    }
}

// Whether the table names, for a hash, each slot as often as the list has it, and no more pairs than it.
fn agrees<T: HashTable>(table: &T, list: &List, hash: u64) -> bool {
    let mut counts = [0usize; SLOTS as usize];
    for slot in (0..list.len()).map_while(|k| table.candidate(hash, k)) {
        // The list has only slots below the bound.
        let Some(count) = counts.get_mut(slot as usize) else {
            return false;
        };
        *count = count.saturating_add(1);
    }
    table.len() == list.len()
        && (0..SLOTS).all(|slot| list.count(hash, slot) == counts[slot as usize])
}

// One call on the table and on the list: what each answers.
fn call<T: HashTable>(
    table: &mut T,
    list: &mut List,
    numbers: &mut Numbers,
    hash: u64,
) -> Result<(Answer, Answer), AllocError> {
    let slot = (numbers.next() % u64::from(SLOTS)) as u32;
    match numbers.next() % 40 {
        0 => {
            table.clear();
            list.clear();
            Ok((Ok(()), Ok(())))
        }
        1 | 2 => {
            let places = if numbers.next() % 8 == 0 {
                &PLACES_WITHOUT_ONE
            } else {
                &PLACES_TURNED
            };
            Ok((table.remap(places), list.remap(places)))
        }
        3..=21 => Ok((
            table.add(hash, slot),
            list.add(hash, slot, table.capacity())?,
        )),
        _ => Ok((table.remove(hash, slot), list.remove(hash, slot))),
    }
}

// The calls, each with a hash that is drawn for it, and what they came to.
fn beside<T: HashTable, F: Fn(&mut Numbers) -> u64>(
    table: &mut T,
    hash_from: F,
    heap: Global,
) -> Result<Tally, AllocError>
    requires { F.IsAlwaysCallable hash_from }
{
    let mut list = List::new(heap);
    let mut numbers = Numbers::new(20261118);
    let mut tally = Tally {
        refused: 0,
        differences: 0,
    };
    for _ in 0..CALLS {
        let hash = hash_from(&mut numbers);
        let (answer, wanted) = call(table, &mut list, &mut numbers, hash)?;
        if answer.is_err() {
            tally.refused = tally.refused.saturating_add(1);
        }
        if answer != wanted || !agrees(table, &list, hash) {
            tally.differences = tally.differences.saturating_add(1);
        }
    }
    Ok(tally)
}

fn report<T: HashTable>(rt: &HostRuntime, name: &str, table: &mut T) -> anyhow::Result<()> {
    let capacity = table.capacity();
    let spread = beside(
        table,
        |numbers| (numbers.next() % 5).wrapping_mul(11400714819323198485),
        rt.alloc(),
    )?;
    table.clear();
    let flat = beside(table, |_| 0, rt.alloc())?;
    println!(rt; "{name}, capacity {capacity}: {spread}")?;
    println!(rt; "    with one hash for all: {flat}")?;
    Ok(())
}

fn main(rt: HostRuntime) -> anyhow::Result<()> {
    let mut cells = [HashedIndex::EMPTY; 24];
    report(
        &rt,
        "linear table over lent memory",
        &mut LinearTable::new(Lent::new(&mut cells)),
    )?;
    report(
        &rt,
        "linear table over a block",
        &mut LinearTable::new(PairBlock::new()),
    )?;
    report(
        &rt,
        "probing table over lent memory",
        &mut ProbingTable::new(Lent::new(&mut cells)),
    )?;
    report(
        &rt,
        "probing table over a block",
        &mut ProbingTable::new(PairBlock::new()),
    )
}
