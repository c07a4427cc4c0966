// One line of the report: a call, its answer, and whether the other runs answered alike; where one did not, its answer.
use crate::calls::{PairCall, Written};
use crate::comparing::{alike, alike_crossed};
use crate::telling::{Shown, Told};
use std::fmt;

// A call, and what each of the three runs told of it.
#[derive(Clone, Copy)]
pub struct Report<'a> {
    pub call: &'a PairCall,
    pub first: &'a Told,
    pub second: &'a Told,
    pub crossed: &'a Told,
}

impl fmt::Display for Report<'_> {
    fn fmt<W: fmt::Write>(&self, f: &mut fmt::Formatter<W>) -> fmt::Result {
        let call = self.call;
        let shown = |told| Shown { call, told };
        write!(f, "{}: {}", Written(call), shown(self.first))?;
        let same = alike(self.first, self.second);
        let same_crossed = alike_crossed(self.first, self.crossed);
        if same && same_crossed {
            return f.write_str("; alike");
        }
        if !same {
            write!(f, "; NOT ALIKE on the second map: {}", shown(self.second))?;
        }
        if !same_crossed {
            write!(
                f,
                "; NOT ALIKE with the keys exchanged: {}",
                shown(self.crossed)
            )?;
        }
        Ok(())
    }
}
