// The smallest records with two keys, and a few runs of calls on them with the answers that the reference model gives.
#![tactic(auto)]

ghost use Rattle.hashing.specs.declared.Words.TheVariants.{One};
ghost use Rattle.std.specs.Prelude.{Some};
ghost use Rattle.worked_cases.specs.Cases.{WorkedCases};
ghost use Rattle.worked_cases.specs.Pairs.{same_first, same_second, first_of, second_of, pair_text};
ghost use Rattle.worked_cases.specs.ShrinkCase.{ShrinkCase};
ghost use Rattle.std.proofs.Common.{rules};

use hashing::Words;
use item::{BiHashItem, Key};
use std::fmt;

// The first key of a pair.
#[derive(Clone, Copy, PartialEq, Eq)]
pub struct First {
    pub number: u8,
}

impl Key for First {
    ghost same = { same_first };

    ghost words = { λ key. One key.number };

    ghost reflexive = { Prim.search rules };

    ghost symmetric = { Prim.search rules };

    ghost transitive = { Prim.search rules };

    ghost alike = { Prim.search rules };

    fn equals(&self, other: &First) -> bool {
        *self == *other
    }

    fn words(&self) -> Words {
        Words::One(u64::from(self.number))
    }
}

// The second key of a pair.
#[derive(Clone, Copy, PartialEq, Eq)]
pub struct Second {
    pub value: u8,
}

impl Key for Second {
    ghost same = { same_second };

    ghost words = { λ key. One key.value };

    ghost reflexive = { Prim.search rules };

    ghost symmetric = { Prim.search rules };

    ghost transitive = { Prim.search rules };

    ghost alike = { Prim.search rules };

    fn equals(&self, other: &Second) -> bool {
        *self == *other
    }

    fn words(&self) -> Words {
        Words::One(u64::from(self.value))
    }
}

// A record that is its two keys and nothing else.
#[derive(Clone, Copy, PartialEq, Eq)]
pub struct Pair {
    pub first: u8,
    pub second: u8,
}

impl BiHashItem for Pair {
    type K1 = First;

    type K2 = Second;

    ghost first = { first_of };

    ghost second = { second_of };

    fn key1(&self) -> First {
        First { number: self.first }
    }

    fn key2(&self) -> Second {
        Second { value: self.second }
    }
}

// As its two numbers in parentheses.
impl fmt::Display for Pair {
    ghost output = { λ pair. Some (pair_text pair) };

    fn fmt<W: fmt::Write>(&self, f: &mut fmt::Formatter<W>) -> fmt::Result {
        let first = self.first;
        let second = self.second;
        write!(f, "({first}, {second})")
    }
}

// Each run of calls has the answers that are written out for it. They are computed by the model's `step`, the same one
// that the contracts of a map cite.
pub fn cases_stand() -> u8
    ensures { WorkedCases }
{
    0
}

// A shrink after a removal comes to what is written out for it. It is computed by the model's `shrinking`, the same one that
// the contract of a map's shrink cites.
pub fn shrink_case_stands() -> u8
    ensures { ShrinkCase }
{
    0
}
