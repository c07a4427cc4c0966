// What became of the records that were taken in.
ghost use Rattle.agree.specs.Tellings.{model_answer, told_entry};
ghost use Rattle.agree.specs.Texts.{totals_line, verdict};
ghost use Rattle.agree.specs.Totals.{at_least, no_totals, noted, count_taken, count_handed, count_rejected};
ghost use Rattle.std.specs.Prelude.{◌≡◌, Some, length};
ghost use Rattle.traces.specs.Laws.{failing};

use crate::calls::{AtLeast, PairCall};
use crate::telling::{Answer, Told};
use item::predicate::Predicate;
use std::alloc::Global;
use std::fmt;
use std::marker::Model;
use traces::Call;
use worked_cases::Pair;

// How many records were taken in, handed back, and rejected by a predicate; and those that stand.
#[derive(Drop)]
pub struct Balance {
    taken: usize,
    handed: usize,
    rejected: usize,
    standing: Vec<Pair>,
}

// A balance is its totals.
impl Model for Balance {
    ghost use Rattle.agree.specs.Totals.{Totals};

    ghost Value = { Totals };

    ghost use Rattle.agree.specs.Balances.{totals_of};

    ghost view = { totals_of };
}

// How many records a predicate rejects.
fn rejects(predicate: &AtLeast, records: &[Pair]) -> usize
    ensures { result ≡ length (failing (at_least predicate.now) records.now) }
{
    records
        .iter()
        .filter(|record| !predicate.keeps(record))
        .count()
}

// How many records a call took in.
fn taken(call: &PairCall, answer: &Answer<Pair>) -> usize
    ensures { result ≡ count_taken call.now (model_answer answer.now) }
{
    match call {
        Call::Insert(_) | Call::Overwrite(_) | Call::Replace(_) => usize::from(
            answer.given.is_ok(),
        ),
        _ => 0,
    }
}

// How many records a call handed back.
fn handed(call: &PairCall, answer: &Answer<Pair>) -> usize
    ensures { result ≡ count_handed call.now (model_answer answer.now) }
{
    match call {
        Call::Overwrite(_)
        | Call::Replace(_)
        | Call::Remove1(_)
        | Call::Remove2(_)
        | Call::RemoveUnique(_, _) => answer.records.len(),
        _ => 0,
    }
}

// How many of the records that stood before a call it rejected.
fn rejected(call: &PairCall, before: &[Pair]) -> usize
    ensures { result ≡ count_rejected call.now before.now }
{
    match call {
        Call::Retain(predicate) => rejects(predicate, before),
        _ => 0,
    }
}

impl Balance {
    // Of a map with no records.
    pub fn new(heap: Global) -> Balance
        ensures { result ≡ no_totals }
    {
        Balance {
            taken: 0,
            handed: 0,
            rejected: 0,
            standing: Vec::new(heap),
        }
    }

    // Counts in what a call did.
    pub fn note(&mut self, call: &PairCall, told: Told)
        ensures { self.new ≡ noted self.old call.now (told_entry told) }
    {
        self.taken = self.taken.saturating_add(taken(call, &told.answer));
        self.handed = self.handed.saturating_add(handed(call, &told.answer));
        self.rejected = self
            .rejected
            .saturating_add(rejected(call, self.standing.as_slice()));
        self.standing = told.standing;
    }

    // Whether the sum comes out.
    fn verdict(&self) -> &'static str
        ensures { result.now ≡ verdict self.now }
    {
        let gone = self.handed.saturating_add(self.rejected);
        if self.taken == gone.saturating_add(self.standing.len()) {
            "nothing lost"
        } else {
            "NOT BALANCED"
        }
    }
}

// The sum, and whether it comes out.
impl fmt::Display for Balance {
    ghost output = { λ balance. Some (totals_line balance) };

    fn fmt<W: fmt::Write>(&self, f: &mut fmt::Formatter<W>) -> fmt::Result {
        let taken = self.taken;
        let handed = self.handed;
        let rejected = self.rejected;
        let standing = self.standing.len();
        let verdict = self.verdict();
        write!(
            f,
            "taken in {taken}, handed back {handed}, rejected {rejected}, standing {standing}: {verdict}"
        )
    }
}
