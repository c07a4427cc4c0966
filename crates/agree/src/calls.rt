// The calls that a trace of pairs has, and how they are written.
ghost use Rattle.agree.specs.Texts.{call_line};
ghost use Rattle.agree.specs.Totals.{at_least};
ghost use Rattle.std.specs.Prelude.{Some};

use item::predicate::Predicate;
use std::fmt;
use traces::Call;
use worked_cases::{First, Pair, Second};

// Keeps the pairs whose first number is at least a bound.
#[derive(Clone, Copy)]
pub struct AtLeast {
    pub bound: u8,
}

impl Predicate for AtLeast {
    type R = Pair;

    ghost keeps = { at_least };

    fn keeps(&self, pair: &Pair) -> bool {
        self.bound <= pair.first
    }
}

pub type PairCall = Call<Pair, First, Second, AtLeast>;

// A call as a trace has it.
#[derive(Clone, Copy)]
pub struct Written<'a>(pub &'a PairCall);

impl fmt::Display for Written<'_> {
    ghost output = { λ written. Some (call_line written.0.now) };

    fn fmt<W: fmt::Write>(&self, f: &mut fmt::Formatter<W>) -> fmt::Result {
        match self.0 {
            Call::Insert(pair) => write!(f, "insert {} {}", pair.first, pair.second),
            Call::Overwrite(pair) => write!(f, "overwrite {} {}", pair.first, pair.second),
            Call::Replace(pair) => write!(f, "replace {} {}", pair.first, pair.second),
            Call::Get1(key) => write!(f, "get1 {}", key.number),
            Call::Get2(key) => write!(f, "get2 {}", key.value),
            Call::GetUnique(key1, key2) => write!(f, "get {} {}", key1.number, key2.value),
            Call::Remove1(key) => write!(f, "remove1 {}", key.number),
            Call::Remove2(key) => write!(f, "remove2 {}", key.value),
            Call::RemoveUnique(key1, key2) => write!(f, "remove {} {}", key1.number, key2.value),
            Call::Retain(predicate) => write!(f, "retain {}", predicate.bound),
            Call::Shrink(scratch) => write!(f, "shrink {}", scratch.len()),
            Call::Len => f.write_str("len"),
        }
    }
}
