// Takes the starter list into a map and reads each code back under both its keys, as field service does.
#![tactic(auto)]

use base::SENTINEL;
use bi_hash_map::BiHashMap;
use field_service::{ReadBack, insert_all, read_back};
use hash_table::HashTable;
use hashing::fnv::Fnv1a;
use item_set::slot::ItemSlot;
use kinds::currency::Currency;
use kinds::starter::starter_list;
use map_tables::parts::{MapParts, Parts};
use memory::Memory;
use memory::lent::Lent;
use model::Found;
use pair_block::PairBlock;
use probing_table::ProbingTable;
use std::{fmt, io};

// Where a key found a record, as a line shows it.
#[derive(Drop)]
struct Place(Option<Found<Currency>>);

impl fmt::Display for Place {
    fn fmt<W: fmt::Write>(&self, f: &mut fmt::Formatter<W>) -> fmt::Result {
        match self.0 {
            Some(found) => {
                let slot = found.slot;
                write!(f, "slot {slot}")
            }
            None => f.write_str("no slot"),
        }
    }
}

// Whether both keys found the same record.
fn same_record(back: &ReadBack<Currency>) -> bool {
    back.first
        .zip(back.second)
        .is_some_and(|(a, b)| a.slot == b.slot)
}

// One line of the report.
fn report(rt: &impl Print, back: &ReadBack<Currency>) -> io::Result<()> {
    let [a, b, c] = back.item.letters.bytes;
    let (a, b, c) = (a as char, b as char, c as char);
    let number = back.item.number;
    let unit = back.item.minor_unit;
    let first = Place(back.first);
    let second = Place(back.second);
    let verdict = if same_record(back) {
        "the same record"
    } else {
        "NOT the same record"
    };
    println!(rt; "{a}{b}{c} {number:03} {unit}: {first} by letters, {second} by number, {verdict}")
}

// Takes rows into a map and reports each as it is read back, then the totals. The tables probe, in blocks of their own.
fn read_back_all(rt: &impl Print, rows: &[Currency]) -> io::Result<()> {
    let mut slots = [ItemSlot::Vacant(SENTINEL); 16];
    let mut map: BiHashMap<
        Currency,
        Parts<Lent<ItemSlot<Currency>>, ProbingTable<PairBlock>, ProbingTable<PairBlock>, Fnv1a>,
    > = BiHashMap::new(
        16,
        Parts {
            memory: Lent::new(&mut slots),
            first: ProbingTable::new(PairBlock::new()),
            second: ProbingTable::new(PairBlock::new()),
            state: Fnv1a,
        },
    );
    insert_all(&mut map, rows);
    let mut same = 0u32;
    for row in rows {
        let back = read_back(&map, row);
        report(rt, &back)?;
        if same_record(&back) {
            same = same.saturating_add(1);
        }
    }
    let codes = rows.len();
    let standing = map.len();
    println!(rt;
        "{codes} codes read back, {standing} records in the map, {same} the same record under both keys"
    )
}

fn main(rt: HostRuntime) -> io::Result<()> {
    let rows = starter_list();
    read_back_all(&rt, &rows)
}
