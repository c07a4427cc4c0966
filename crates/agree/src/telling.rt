// What a call left behind: what it gave or why it was refused, and records; and its answer as a line shows it.
ghost use Rattle.agree.specs.Tellings.{model_answer, number_of, told_entry, insides, uncrossed};
ghost use Rattle.agree.specs.Texts.{answer_line, numbers_text, records_text, refusal_line};
ghost use Rattle.model.specs.Answers.{counted, placed, refused};
ghost use Rattle.model.specs.Told.{shared, listed, looked, refusal};
ghost use Rattle.std.specs.Prelude.{◌≡◌, [], ◌++◌, IfOk, Ok, Some, vec_items};
ghost use Rattle.traces.specs.Logs.{entry_of, outcome_of};

use crate::calls::PairCall;
use item::crossed::Crossed;
use model::{Duplicates, Found, MapRefusal, ScratchShort};
use std::alloc::{AllocError, Global};
use std::fmt;
use traces::{Call, Event, Outcome};
use worked_cases::Pair;

// Why a call was refused.
#[derive(Clone, Copy, PartialEq, Eq)]
pub enum Refusal {
    SharedKey,
    Full,
    NotThere,
    ScratchShort,
}

// With its number.
impl fmt::Display for Refusal {
    ghost output = { λ refusal. Some (refusal_line refusal) };

    fn fmt<W: fmt::Write>(&self, f: &mut fmt::Formatter<W>) -> fmt::Result {
        match self {
            Refusal::SharedKey => f.write_str("refused 1, these share a key"),
            Refusal::Full => f.write_str("refused 2, full"),
            Refusal::NotThere => f.write_str("refused 3, not there"),
            Refusal::ScratchShort => f.write_str("refused 7, scratch too short"),
        }
    }
}

// What a call that was not refused gave: a slot and a count, 0 where it gives none.
#[derive(Clone, Copy, PartialEq, Eq)]
pub struct Given {
    pub slot: u32,
    pub count: usize,
}

// What a call gave, or why it was refused; and records, in their order.
#[derive(Drop, PartialEq, Eq)]
pub struct Answer<T> {
    pub given: Result<Given, Refusal>,
    pub records: Vec<T>,
}

// An answer, the scratch as it is then, and the standing records.
#[derive(Drop, PartialEq, Eq)]
pub struct Told {
    pub answer: Answer<Pair>,
    pub scratch: Vec<u32>,
    pub standing: Vec<Pair>,
}

fn placed<T>(slot: u32, records: Vec<T>) -> Answer<T>
    ensures { model_answer result ≡ placed slot records.items }
{
    Answer {
        given: Ok(Given { slot, count: 0 }),
        records,
    }
}

fn counted<T>(count: usize, heap: Global) -> Answer<T>
    ensures { model_answer result ≡ counted count }
{
    Answer {
        given: Ok(Given { slot: 0, count }),
        records: Vec::new(heap),
    }
}

// Without records.
fn bare<T>(refusal: Refusal, heap: Global) -> Answer<T>
    ensures { model_answer result ≡ refused (number_of refusal) [] }
{
    Answer {
        given: Err(refusal),
        records: Vec::new(heap),
    }
}

// Records, and those that share a key behind them.
fn with_duplicates<T: Copy>(
    mut records: Vec<T>,
    duplicates: &Duplicates<T>,
) -> Result<Vec<T>, AllocError>
    ensures { IfOk result (λ all. vec_items all ≡ vec_items records ++ listed duplicates.now) }
{
    match *duplicates {
        Duplicates::One(a) => records.push(a)?,
        Duplicates::Two(a, b) => {
            records.push(a)?;
            records.push(b)?;
        }
    }
    Ok(records)
}

fn displaced<T: Copy>(displaced: &Option<Duplicates<T>>, heap: Global) -> Result<Vec<T>, AllocError>
    ensures { IfOk result (λ records. vec_items records ≡ shared displaced.now) }
{
    match displaced {
        None => Ok(Vec::new(heap)),
        Some(duplicates) => with_duplicates(Vec::new(heap), duplicates),
    }
}

// The new record comes first, and then those that it shares a key with.
fn refused<T: Copy>(refused: &MapRefusal<T>, heap: Global) -> Result<Answer<T>, AllocError>
    ensures { IfOk result (λ answer. model_answer answer ≡ refusal refused.now) }
{
    match refused {
        MapRefusal::Duplicate(duplicate) => {
            let mut records = Vec::new(heap);
            records.push(duplicate.new)?;
            Ok(Answer {
                given: Err(Refusal::SharedKey),
                records: with_duplicates(records, &duplicate.duplicates)?,
            })
        }
        MapRefusal::Full => Ok(bare(Refusal::Full, heap)),
        MapRefusal::NotThere => Ok(bare(Refusal::NotThere, heap)),
    }
}

fn found<T: Copy>(found: &Found<T>, heap: Global) -> Result<Answer<T>, AllocError>
    ensures { IfOk result (λ answer. model_answer answer ≡ looked (Ok found.now)) }
{
    let mut records = Vec::new(heap);
    records.push(found.item)?;
    Ok(placed(found.slot, records))
}

// What an outcome answers.
fn answer_of<T: Copy>(outcome: &Outcome<T>, heap: Global) -> Result<Answer<T>, AllocError>
    ensures { IfOk result (λ answer. model_answer answer ≡ outcome_of outcome.now) }
{
    match outcome {
        Outcome::Inserted(Ok(slot)) => Ok(placed(*slot, Vec::new(heap))),
        Outcome::Overwritten(Ok(into)) => Ok(placed(into.slot, displaced(&into.displaced, heap)?)),
        Outcome::Found(Ok(standing)) => found(standing, heap),
        Outcome::Counted(count) | Outcome::Shrunk(Ok(count)) => Ok(counted(*count, heap)),
        Outcome::Inserted(Err(refusal))
        | Outcome::Overwritten(Err(refusal))
        | Outcome::Found(Err(refusal)) => refused(refusal, heap),
        Outcome::Shrunk(Err(ScratchShort)) => Ok(bare(Refusal::ScratchShort, heap)),
    }
}

// What an event tells.
pub fn tell(event: &Event<Pair>, heap: Global) -> Result<Told, AllocError>
    ensures { IfOk result (λ told. told_entry told ≡ entry_of event.now) }
{
    let answer = answer_of(&event.outcome, heap)?;
    let scratch = Vec::from_slice(heap, event.scratch.as_slice())?;
    let standing = Vec::from_slice(heap, event.standing.as_slice())?;
    Ok(Told {
        answer,
        scratch,
        standing,
    })
}

// The records inside crossed ones, in their order.
fn inner(records: &[Crossed<Pair>], heap: Global) -> Result<Vec<Pair>, AllocError>
    ensures { IfOk result (λ pairs. vec_items pairs ≡ insides records.now) }
{
    records.iter().map(|record| record.inner).collect(heap)
}

// The same of a run with exchanged keys, with the records as they are in the others.
pub fn tell_crossed(event: &Event<Crossed<Pair>>, heap: Global) -> Result<Told, AllocError>
    ensures { IfOk result (λ told. told_entry told ≡ uncrossed (entry_of event.now)) }
{
    let crossed = answer_of(&event.outcome, heap)?;
    let answer = Answer {
        given: crossed.given,
        records: inner(crossed.records.as_slice(), heap)?,
    };
    let scratch = Vec::from_slice(heap, event.scratch.as_slice())?;
    let standing = inner(event.standing.as_slice(), heap)?;
    Ok(Told {
        answer,
        scratch,
        standing,
    })
}

// Records, each behind a comma.
#[derive(Clone, Copy)]
struct Behind<'a>(&'a [Pair]);

impl fmt::Display for Behind<'_> {
    ghost output = { λ behind. Some (records_text behind.0.now) };

    fn fmt<W: fmt::Write>(&self, f: &mut fmt::Formatter<W>) -> fmt::Result {
        for record in self.0 {
            write!(f, ", {record}")?;
        }
        Ok(())
    }
}

// What each place of a scratch holds.
#[derive(Clone, Copy)]
struct Scratch<'a>(&'a [u32]);

impl fmt::Display for Scratch<'_> {
    ghost output = { λ scratch. Some (numbers_text scratch.0.now) };

    fn fmt<W: fmt::Write>(&self, f: &mut fmt::Formatter<W>) -> fmt::Result {
        write!(f, "{:?}", self.0)
    }
}

// The answer of a call, and the records that it has. What was given shows as the call has it.
#[derive(Clone, Copy)]
pub struct Shown<'a> {
    pub call: &'a PairCall,
    pub told: &'a Told,
}

impl fmt::Display for Shown<'_> {
    ghost output = { λ shown. Some (answer_line shown.call.now (told_entry shown.told.now)) };

    fn fmt<W: fmt::Write>(&self, f: &mut fmt::Formatter<W>) -> fmt::Result {
        let told = self.told;
        let records = Behind(told.answer.records.as_slice());
        match (told.answer.given, self.call) {
            (Err(refusal), _) => write!(f, "{refusal}{records}"),
            (Ok(given), Call::Len) => write!(f, "{} standing", given.count),
            (Ok(given), Call::Retain(_)) => write!(f, "{} left standing", given.count),
            (Ok(given), Call::Shrink(_)) => {
                let scratch = Scratch(told.scratch.as_slice());
                write!(f, "{} slots left, scratch {scratch}", given.count)
            }
            (Ok(given), _) => write!(f, "slot {}{records}", given.slot),
        }
    }
}
