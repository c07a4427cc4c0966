// Calls and answers as a line shows them.
ghost use Rattle.cases.specs.Texts.{call_text, answer_text};
ghost use Rattle.std.specs.Prelude.{Some};

use crate::call::Call;
use model::{Duplicates, MapRefusal, Overwritten};
use std::fmt;
use worked_cases::Pair;

impl fmt::Display for Call<Pair> {
    ghost output = { λ call. Some (call_text call) };

    fn fmt<W: fmt::Write>(&self, f: &mut fmt::Formatter<W>) -> fmt::Result {
        match self {
            Call::Insert(value) => write!(f, "insert {value}"),
            Call::Overwrite(value) => write!(f, "overwrite {value}"),
        }
    }
}

// What a call answered. A refusal is shown with its number.
#[derive(Drop)]
pub struct Answer(pub Result<Overwritten<Pair>, MapRefusal<Pair>>);

impl fmt::Display for Answer {
    ghost output = { λ answer. Some (answer_text answer.0) };

    fn fmt<W: fmt::Write>(&self, f: &mut fmt::Formatter<W>) -> fmt::Result {
        match &self.0 {
            Ok(overwritten) => {
                let slot = overwritten.slot;
                match overwritten.displaced {
                    None => write!(f, "slot {slot}"),
                    Some(Duplicates::One(a)) => write!(f, "slot {slot}, displaced {a}"),
                    Some(Duplicates::Two(a, b)) => write!(f, "slot {slot}, displaced {a}, {b}"),
                }
            }
            Err(MapRefusal::Duplicate(duplicate)) => match duplicate.duplicates {
                Duplicates::One(a) => write!(f, "refused 1, shares a key with {a}"),
                Duplicates::Two(a, b) => write!(f, "refused 1, shares a key with {a}, {b}"),
            },
            Err(MapRefusal::Full) => f.write_str("refused 2, full"),
            Err(MapRefusal::NotThere) => f.write_str("refused 3, not there"),
        }
    }
}
