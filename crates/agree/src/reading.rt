// A trace as text, one call to a line: a name and its numbers. A line with nothing on it, or a remark behind '#', is no call.
ghost use Rattle.agree.specs.Reading.{number, request_said, pair_said, key_said, said_of, one_said, two_said, is_remark as begins_remark, named, behind, or_expected, expected, form_text, Reads, ReadsLine};
ghost use Rattle.agree.specs.declared.reading.ReadError.TheVariants.{OutOfMemory};
ghost use Rattle.std.specs.Prelude.{◌≡◌, IfOk, Some, option_map};

use crate::calls::{AtLeast, PairCall};
use item::BiHashItem;
use std::alloc::{AllocError, Global};
use std::fmt;
use traces::Call;
use worked_cases::{First, Pair, Second};

// What a line says.
#[derive(Drop)]
pub enum Line {
    Blank,
    Capacity(usize),
    Call(PairCall),
}

// What a line that cannot be read would have behind its name, or a name that there is.
#[derive(Clone, Copy, PartialEq, Eq, Debug)]
pub enum Form {
    TwoKeys,
    OneKey,
    OnePlace,
    NoNumber,
    Name,
}

impl fmt::Display for Form {
    ghost output = { λ form. Some (form_text form) };

    fn fmt<W: fmt::Write>(&self, f: &mut fmt::Formatter<W>) -> fmt::Result {
        match self {
            Form::TwoKeys => f.write_str("two numbers up to 255"),
            Form::OneKey => f.write_str("one number up to 255"),
            Form::OnePlace => f.write_str("one number up to 65535"),
            Form::NoNumber => f.write_str("no number"),
            Form::Name => f.write_str(
                "insert, overwrite, replace, get1, get2, get, remove1, remove2, remove, retain, shrink, len or capacity",
            ),
        }
    }
}

// Why a line was not read: it says nothing that there is, or there was no memory for what it says.
#[derive(Clone, Copy, PartialEq, Eq)]
pub enum ReadError {
    Expected(Form),
    OutOfMemory(AllocError),
}

impl From<AllocError> for ReadError {
    ghost from_gives = { λ error e. e ≡ OutOfMemory error };

    fn from(error: AllocError) -> ReadError {
        ReadError::OutOfMemory(error)
    }
}

fn key(word: &str) -> Option<u8>
    ensures { result ≡ number 8 word.now }
{
    word.parse::<u8>().ok()
}

fn count(word: &str) -> Option<u16>
    ensures { result ≡ number 16 word.now }
{
    word.parse::<u16>().ok()
}

// A call with two numbers, by its name.
fn call_of_pair(name: &str, pair: Pair) -> Option<PairCall>
    ensures { option_map request_said result ≡ pair_said name.now pair }
{
    match name {
        "insert" => Some(Call::Insert(pair)),
        "overwrite" => Some(Call::Overwrite(pair)),
        "replace" => Some(Call::Replace(pair)),
        "get" => Some(Call::GetUnique(pair.key1(), pair.key2())),
        "remove" => Some(Call::RemoveUnique(pair.key1(), pair.key2())),
        _ => None,
    }
}

// A call with one number that is a key, by its name.
fn call_of_key(name: &str, key: u8) -> Option<PairCall>
    ensures { option_map request_said result ≡ key_said name.now key }
{
    match name {
        "get1" => Some(Call::Get1(First { number: key })),
        "get2" => Some(Call::Get2(Second { value: key })),
        "remove1" => Some(Call::Remove1(First { number: key })),
        "remove2" => Some(Call::Remove2(Second { value: key })),
        "retain" => Some(Call::Retain(AtLeast { bound: key })),
        _ => None,
    }
}

// What a line would have behind its name.
fn expected(name: &str) -> Form
    ensures { result ≡ expected name.now }
{
    match name {
        "insert" | "overwrite" | "replace" | "get" | "remove" => Form::TwoKeys,
        "get1" | "get2" | "remove1" | "remove2" | "retain" => Form::OneKey,
        "shrink" | "capacity" => Form::OnePlace,
        "len" => Form::NoNumber,
        _ => Form::Name,
    }
}

// A line with one number, if it says anything. A shrink brings a scratch of as many places, each 0.
fn read_one(name: &str, word: &str, heap: Global) -> Result<Option<Line>, AllocError>
    ensures { IfOk result (λ line. option_map said_of line ≡ one_said name.now word.now) }
{
    Ok(match name {
        "capacity" => count(word).map(|wanted| Line::Capacity(usize::from(wanted))),
        "shrink" => match count(word) {
            Some(places) => {
                let scratch = vec![in heap; 0u32; usize::from(places)]?;
                Some(Line::Call(Call::Shrink(scratch)))
            }
            None => None,
        },
        _ => key(word)
            .and_then(|key| call_of_key(name, key))
            .map(Line::Call),
    })
}

// A line with two.
fn read_two(name: &str, first: &str, second: &str) -> Option<Line>
    ensures { option_map said_of result ≡ two_said name.now first.now second.now }
{
    let (first, second) = (key(first)?, key(second)?);
    call_of_pair(name, Pair { first, second }).map(Line::Call)
}

// A line by its name and the words behind that, if it says anything: a third word is one too many.
fn read_named(
    name: &str,
    first: Option<&str>,
    second: Option<&str>,
    third: Option<&str>,
    heap: Global,
) -> Result<Option<Line>, AllocError>
    ensures { IfOk result (λ line. option_map said_of line ≡ named name.now (behind first.entry second.entry third.entry)) }
{
    match (first, second, third) {
        (None, _, _) if name == "len" => Ok(Some(Line::Call(Call::Len))),
        (Some(word), None, _) => read_one(name, word, heap),
        (Some(first), Some(second), None) => Ok(read_two(name, first, second)),
        _ => Ok(None),
    }
}

// What a line with a name says, or what it would have behind the name.
fn read_behind(
    name: &str,
    first: Option<&str>,
    second: Option<&str>,
    third: Option<&str>,
    heap: Global,
) -> Result<Line, ReadError>
    ensures { Reads result (or_expected name.now (named name.now (behind first.entry second.entry third.entry))) }
{
    read_named(name, first, second, third, heap)?.ok_or_else(|| ReadError::Expected(expected(name)))
}

// Whether a word begins a remark.
#[tactic(auto, using(crate::proofs::Words::remark_byte))]
fn is_remark(word: &str) -> bool
    ensures { result ≡ begins_remark word.now }
{
    word.starts_with('#')
}

// Reads one line. No more of it is looked at than a name and three words, and nothing behind the sign of a remark, however long it
// is.
pub fn read_line(text: &str, heap: Global) -> Result<Line, ReadError>
    ensures { ReadsLine text.now result }
{
    let mut words = text.split_whitespace();
    let Some(name) = words.next() else {
        return Ok(Line::Blank);
    };
    if is_remark(name) {
        return Ok(Line::Blank);
    }
    let first = words.next();
    let second = words.next();
    let third = words.next();
    read_behind(name, first, second, third, heap)
}
