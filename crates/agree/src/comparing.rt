// Whether what two runs left behind is alike.
ghost use Rattle.agree.specs.Likeness.{same_pair, same_pairs, count_or_refusal, crossed_entry};
ghost use Rattle.agree.specs.Tellings.{told_entry};
ghost use Rattle.base.specs.Counting.{times};
ghost use Rattle.std.specs.Prelude.{◌≡◌, ◌↔◌, IsTrue};
ghost use Rattle.traces.specs.Laws.{Alike};

use crate::telling::{Given, Refusal, Told};
use worked_cases::Pair;

fn times(pair: &Pair, xs: &[Pair]) -> usize
    ensures { result ≡ times (same_pair pair.now) xs.now }
{
    xs.iter().filter(|x| **x == *pair).count()
}

// Whether two lists have the same pairs, each as often, in any order.
fn same_pairs(xs: &[Pair], ys: &[Pair]) -> bool
    ensures { result ≡ same_pairs xs.now ys.now }
{
    xs.len() == ys.len() && xs.iter().all(|x| times(x, xs) == times(x, ys))
}

// The count that a call gave, or why it was refused.
fn count_or_refusal(given: &Result<Given, Refusal>) -> Result<usize, Refusal>
    ensures { result ≡ count_or_refusal given.now }
{
    given.map(|given| given.count)
}

// Alike in everything: the answer with its slot and the order of its records, the scratch, and the standing records.
pub fn alike(first: &Told, second: &Told) -> bool
    ensures { IsTrue result ↔ (told_entry first.now ≡ told_entry second.now) }
{
    first == second
}

// Alike but for slots, what a scratch holds, and the order of records: where keys are exchanged, these may differ.
pub fn alike_crossed(first: &Told, crossed: &Told) -> bool
    ensures { IsTrue result ↔ Alike (told_entry first.now) (crossed_entry (told_entry crossed.now)) }
{
    count_or_refusal(&first.answer.given) == count_or_refusal(&crossed.answer.given)
        && same_pairs(
            first.answer.records.as_slice(),
            crossed.answer.records.as_slice(),
        )
        && first.scratch.len() == crossed.scratch.len()
        && same_pairs(first.standing.as_slice(), crossed.standing.as_slice())
}
